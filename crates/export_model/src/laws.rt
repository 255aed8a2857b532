ghost use Rattle.std.specs.Prelude.{◌≡◌, ◌↔◌, ℕ, List, Some, None};
ghost use Rattle.export_model.specs.declared.params.Param.{Param};
ghost use Rattle.export_model.specs.Keys.{first_of_key, IsFirstOfKey, LacksKey};

/// A law, with nothing to call: the first parameter with a key has it while none before it has, and
/// there is none exactly where no parameter has the key.
pub fn a_key_finds_its_first_parameter()
    ensures some { (key : List ℕ) (params : List Param) (param : Param)
        → (first_of_key key params ≡ Some param) ↔ IsFirstOfKey key params param }
    ensures none { (key : List ℕ) (params : List Param)
        → (first_of_key key params ≡ None) ↔ LacksKey key params }
{}
