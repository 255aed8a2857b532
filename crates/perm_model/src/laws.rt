ghost use Rattle.std.specs.Prelude.{◌≡◌, ◌<◌, ℕ, List, Some};
ghost use Rattle.perm_model.specs.Apis.{api_named, api_name};
ghost use Rattle.perm_model.specs.Names.{permission_named, permission_name};
ghost use Rattle.perm_model.specs.declared.permissions.Permission.{Permission};

/// A law, with nothing to call: each permission has a word of its own.
pub fn words_are_of_one_permission()
    ensures word { (p : Permission) → permission_named (permission_name p) ≡ Some p }
    ensures permission { (name : List ℕ) (p : Permission) →
        permission_named name ≡ Some p → permission_name p ≡ name }
{}

/// A law, with nothing to call: there are 44 calls, and each has a name of its own.
pub fn names_are_of_one_api()
    ensures name { (api : ℕ) → api < 44 → api_named (api_name api) ≡ Some api }
    ensures api { (name : List ℕ) (api : ℕ) →
        api_named name ≡ Some api → (api < 44) × (api_name api ≡ name) }
{}
