ghost use Rattle.std.specs.Prelude.{◌≡◌, ℕ, pos, suc, List, map, Bool, true, false, codes};
ghost use Rattle.gtm_data.specs.Facts.{cookie, global, returns, time};
ghost use Rattle.gtm_data.specs.Tree.{Tree, Trees, trees, bool, whole, text, list, object, Entries};
ghost use Rattle.gtm_data.specs.Tree.{none, entry};
ghost use Rattle.trace_forms.specs.FormKeys.{keys_in, step_keys};
ghost use Rattle.trace_forms.specs.Forms.{form_of, is_regional, are_listed, are_texts, page_fact};
ghost use Rattle.trace_forms.specs.Steps.{Step, fact, push, args, load, vendor, step};

/// A law, with nothing to call: what each form asks for.
pub fn forms_ask_for_steps()
    ensures push { (t : Tree) → form_of (object (entry (codes "push") t none)) ≡ step (push t) }
    ensures args { (ts : Trees) → is_regional ts ≡ false
        → form_of (object (entry (codes "args") (list ts) none)) ≡ step (args (list ts)) }
    ensures page { (es : Entries) → are_listed es ≡ true → are_texts es ≡ true
        → form_of (object (entry (codes "page") (object es) none)) ≡ step (fact (page_fact es)) }
    ensures time { (ms : ℕ)
        → form_of (object (entry (codes "time") (whole (pos ms)) none))
        ≡ step (fact (time (pos ms))) }
    ensures load { (before : ℕ) (ok : Bool)
        → form_of (object
        (entry (codes "load") (whole (pos (suc before)))
        (entry (codes "ok") (bool ok) none))) ≡ step (load (suc before) ok) }
    ensures vendor { (before : ℕ) (ok : Bool)
        → form_of (object
        (entry (codes "ok") (bool ok)
        (entry (codes "vendor") (whole (pos (suc before))) none))) ≡ step (vendor (suc before) ok) }
    ensures cookie { (name : List ℕ) (values : List (List ℕ))
        → form_of (object
        (entry (codes "cookie") (text name)
        (entry (codes "values") (list (trees (map text values))) none))) ≡ step (fact (cookie name
        values)) }
    ensures global { (key : List ℕ) (t : Tree)
        → form_of (object (entry (codes "global") (text key) (entry (codes "value") t none)))
        ≡ step (fact (global key t)) }
    ensures returns { (key : List ℕ) (t : Tree)
        → form_of (object (entry (codes "global") (text key) (entry (codes "returns") t none)))
        ≡ step (fact (returns key t)) }
{}

/// A law, with nothing to call: a value that asks for a step has exactly the keys of that step's
/// form, and so it is of no other form.
pub fn steps_have_the_keys_of_their_form()
    ensures { (t : Tree) (s : Step) → form_of t ≡ step s → keys_in t ≡ step_keys s }
{}
