ghost use Rattle.sjs_worked.specs.Refused.{AreRefused, refused};
ghost use Rattle.sjs_worked.specs.Worked.{AreRead, worked};

/// A law, with nothing to call: the worked tokens are read as their scripts, and the others are
/// refused at their places.
pub fn scripts_are_worked()
    ensures reads { AreRead worked }
    ensures refuses { AreRefused refused }
{}
