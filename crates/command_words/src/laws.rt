//! A law of what the words ask for. The function does nothing: its contract is the law.

ghost use Rattle.command_words.specs.Limits.{RequestsKeepLimits};

/// The numbers of each command that the words ask for are in their limits.
pub fn limits_law()
    ensures { RequestsKeepLimits }
{}
