ghost use Rattle.std.specs.Prelude.{◌≡◌, ◌≤◌, IsTrue, IfSome, slice_index};
ghost use Rattle.std.specs.List.{list_all};
ghost use Rattle.rfnoc_cli.specs.Words.{FitsForm, form_of_words, is_digit, number_of, one_word, packets_of, port_form, port_of, three_words, two_words};

/// What the words of the command line ask for.
#[derive(Clone, Copy, Debug, PartialEq, Eq)]
pub enum Form {
    RunOne,
    Show,
    Check,
    /// The datagrams of this UDP port, in a pcap file.
    Pcap(u16),
    /// The generated script with this number of packets, 1 to 16,384, written.
    Gen(u32),
    /// The same script, performed.
    GenRun(u32),
}

/// The form that the words are.
#[tactic(auto, unfolding(crate::specs::Words::form_of_texts))]
pub(crate) fn form_of_words(words: &[String]) -> Option<Form>
    ensures form { result ≡ form_of_words words.now }
    ensures fits { IfSome result FitsForm }
{
    match words {
        [word] => one_word(word.as_str()),
        [first, second] => two_words(first.as_str(), second.as_str()),
        [first, second, third] => three_words(first.as_str(), second.as_str(), third.as_str()),
        _ => None,
    }
}

fn one_word(word: &str) -> Option<Form>
    ensures form { result ≡ one_word word.now }
    ensures fits { IfSome result FitsForm }
{
    if word == "show" {
        Some(Form::Show)
    } else if word == "check" {
        Some(Form::Check)
    } else {
        None
    }
}

fn two_words(first: &str, second: &str) -> Option<Form>
    ensures form { result ≡ two_words first.now second.now }
    ensures fits { IfSome result FitsForm }
{
    if first == "run" && second == "--one" {
        Some(Form::RunOne)
    } else if first == "pcap" {
        port_form(second)
    } else if first == "gen" {
        Some(Form::Gen(packets_of(second)?))
    } else {
        None
    }
}

fn three_words(first: &str, second: &str, third: &str) -> Option<Form>
    ensures form { result ≡ three_words first.now second.now third.now }
    ensures fits { IfSome result FitsForm }
{
    if first == "gen" && third == "--run" {
        Some(Form::GenRun(packets_of(second)?))
    } else {
        None
    }
}

/// A number of packets: decimal digits without a sign or a leading zero, 1 to 16,384.
fn packets_of(text: &str) -> Option<u32>
    ensures value { result ≡ packets_of (port_of text.now) }
    ensures range { IfSome result (λ n. (1 ≤ n) × (n ≤ 16384)) }
{
    let n = port_of(text)? as u32;
    if 1 <= n && n <= 16384 { Some(n) } else { None }
}

fn port_form(text: &str) -> Option<Form>
    ensures form { result ≡ port_form (port_of text.now) }
    ensures fits { IfSome result FitsForm }
{
    match port_of(text) {
        Some(port) => Some(Form::Pcap(port)),
        None => None,
    }
}

/// A port's number: decimal digits without a sign or a leading zero, 1 to 65535.
fn port_of(text: &str) -> Option<u16>
    ensures { result ≡ port_of text.now }
{
    let bytes = text.as_bytes();
    let first = bytes.first().copied().unwrap_or(0);
    if first < b'1' || !all_digits(bytes) {
        return None;
    }
    number_of(text)
}

fn all_digits(bytes: &[u8]) -> bool
    ensures { result ≡ list_all is_digit bytes.now }
{
    bytes.iter().all(|byte| 48 <= *byte && *byte <= 57)
}

/// The number that digits write, if it has sixteen bits.
fn number_of(text: &str) -> Option<u16>
    requires first { 49 ≤ slice_index text.now 0 }
    requires digits { IsTrue (list_all is_digit text.now) }
    ensures { result ≡ number_of text.now }
{
    match text.parse::<u16>() {
        Ok(port) => Some(port),
        Err(_) => None,
    }
}
