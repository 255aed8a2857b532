ghost use Rattle.std.specs.Prelude.{◌≡◌, Some, None, IfSome, IfNone};
ghost use Rattle.std.specs.Str.{chars};
ghost use Rattle.gtm_cli.specs.Words.{names_in};

/// The names of the two files, or `None` where the words are no command.
pub fn names_in(words: &[String]) -> Option<(&str, &str)>
    ensures some { IfSome result
        (λ names. names_in words.now
        ≡ Some (record { export = chars names.0.now; trace = chars names.1.now })) }
    ensures none { IfNone result (names_in words.now ≡ None) }
{
    match words {
        [command, export, trace] => if command.as_str() == "run" {
            Some((export.as_str(), trace.as_str()))
        } else {
            None
        },
        _ => None,
    }
}
