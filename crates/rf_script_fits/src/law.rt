//! The law is a function that does nothing and promises it.
ghost use Rattle.rf_script_fits.specs.Fitting.{ValuesFit, TextsFit, AnswersFit};

/// A JSON value or a text that is read as a script is read as one that fits.
pub fn what_is_read_fits()
    ensures values { ValuesFit }
    ensures texts { TextsFit }
    ensures answers { AnswersFit }
{}
