//! Each law is a function that does nothing and promises it.
ghost use Rattle.rf_script_round.specs.Back.{ValuesAreReadBack, TextsAreReadBack};

/// The JSON value of a script that fits is read as this script.
pub fn the_value_of_a_script_is_read_as_it()
    ensures { ValuesAreReadBack }
{}

/// A text whose JSON value is that of a script that fits is read as this script, and as nothing else,
/// unless it is too long.
pub fn a_text_of_a_script_is_read_as_it()
    ensures { TextsAreReadBack }
{}
