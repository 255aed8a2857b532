ghost use Rattle.std.specs.Prelude.{◌≡◌, ◌↔◌, ℕ, List, Some};
ghost use Rattle.template_sections.specs.Headings.{heading_name, IsHeading};
ghost use Rattle.template_sections.specs.Parts.{Part, IsCutInto};

/// A law, with nothing to call: a text is a first part and parts in one way.
pub fn a_text_is_cut_in_one_way()
    ensures first { (text : List ℕ) (first other : List (List ℕ)) (some more : List Part) →
        IsCutInto text first some → IsCutInto text other more → first ≡ other }
    ensures parts { (text : List ℕ) (first other : List (List ℕ)) (some more : List Part) →
        IsCutInto text first some → IsCutInto text other more → some ≡ more }
{}

/// A law, with nothing to call: a line is a heading exactly where it is three underscores, a name
/// of letters `A` to `Z`, digits and underscores, three underscores, and the end of a line.
pub fn a_heading_is_a_framed_name()
    ensures { (line name : List ℕ) → (heading_name line ≡ Some name) ↔ IsHeading line name }
{}
