ghost use Rattle.std.specs.Prelude.{◌≡◌, ℕ, List, All, Contains};
ghost use Rattle.std.specs.List.{flat_map};
ghost use Rattle.trace_lines.specs.Lines.{AllButLastEnded, bytes_of_line, lines};

/// A law, with nothing to call: the bytes of a trace are those of its lines, each with its LF.
pub fn lines_join_to_the_bytes()
    ensures { (bytes : List ℕ) → flat_map bytes_of_line (lines bytes) ≡ bytes }
{}

/// A law, with nothing to call: no line has an LF in it, and each but the last has one behind it.
pub fn lines_hold_no_lf()
    ensures texts { (bytes : List ℕ) → All (λ line. ¬ Contains line.text 10) (lines bytes) }
    ensures ended { (bytes : List ℕ) → AllButLastEnded (lines bytes) }
{}
