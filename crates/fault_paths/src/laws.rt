ghost use Rattle.std.specs.Prelude.{◌≡◌, List, ℕ, All, Some, true, encode_utf8_all};
ghost use Rattle.serde_json.specs.Data as json;
ghost use Rattle.serde_json.specs.Find.{pointer};
ghost use Rattle.fault_paths.specs.Keyed.{IsKeyed};
ghost use Rattle.gtm_data.specs.Plain.{is_nest, is_unfit, nodes, not_whole, too_deep};

/// A law, with nothing to call: the path of each value within a JSON tree, as a JSON pointer
/// (RFC 6901), leads to that value, where each key of an object is there once.
pub fn paths_lead_to_their_values()
    ensures { (d : json.Data) → IsKeyed d
        → All (λ node. pointer (encode_utf8_all node.path) d ≡ Some node.value) (nodes d) }
{}

/// A law, with nothing to call: so the path of the first number that is not whole leads to such a
/// number, and the path of what is too deep to a List or a Map.
pub fn faults_lie_at_their_paths()
    ensures number { (d : json.Data) (path : List ℕ) → IsKeyed d → not_whole d ≡ Some path
        → (value : json.Data) × (pointer (encode_utf8_all path) d ≡ Some value)
        × (is_unfit value ≡ true) }
    ensures depth { (d : json.Data) (path : List ℕ) → IsKeyed d → too_deep d ≡ Some path
        → (value : json.Data) × (pointer (encode_utf8_all path) d ≡ Some value)
        × (is_nest value ≡ true) }
{}
