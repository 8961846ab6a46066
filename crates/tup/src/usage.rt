//! What standard error says of a word that can't be where it is.
use tup_top::{Status, Word};

/// The orders.
const ORDERS: [&str; 8] = [
    "upd", "init", "todo", "verify", "outputs", "clean", "demo", "large",
];

/// The options of an update, and what else a word may be that begins so.
const OPTIONS: [&str; 10] = [
    "--proc",
    "--digest",
    "--explain",
    "--log",
    "--verbose",
    "--quiet",
    "--help",
    "--version",
    "-j",
    "-k",
];

/// The length of the longest of these words.
const LONGEST: u32 = 9;

/// Says why a word can't be there, if the status says so.
pub(crate) fn explain(rt: HostRuntime, words: &[Word], status: &Status) {
    if let Status::Usage { place } = status {
        let at = (*place as usize).saturating_sub(1);
        let before = words.get(..at).unwrap_or(words);
        let last = match before.last() {
            Some(word) => word.0.as_str(),
            None => "",
        };
        // Words that can't be printed change nothing: the exit number says as much.
        drop(match words.get(at) {
            Some(word) => of_word(rt, before, last, word.0.as_str()),
            None => of_none(rt, last),
        });
    }
}

/// Says why a word couldn't be read, where the status is that.
pub(crate) fn explain_unread(rt: HostRuntime, status: &Status) {
    if let Status::Usage { place } = status {
        // Words that can't be printed change nothing: the exit number says as much.
        drop(eprintln!(rt; "tup: word {place} isn't UTF-8, or has more than 4096 bytes"));
    }
}

/// Says what has to follow `large`, where the status is that something else does.
pub(crate) fn explain_large(rt: HostRuntime, status: &Status) {
    if let Status::Usage { .. } = status {
        // Words that can't be printed change nothing: the exit number says as much.
        drop(eprintln!(rt; "tup: a number from 1 to 1000 has to follow large, and no other word"));
    }
}

/// Says what has to follow the last word.
fn of_none(rt: HostRuntime, last: &str) -> std::io::Result<()> {
    match last {
        "-j" => eprintln!(rt; "tup: a number from 1 to 16 has to follow -j"),
        "--proc" => eprintln!(rt; "tup: a program has to follow --proc"),
        _ => Ok(()),
    }
}

/// Says why a word can't follow those before it.
fn of_word(rt: HostRuntime, before: &[Word], last: &str, word: &str) -> std::io::Result<()> {
    if last == "-j" {
        return eprintln!(rt; "tup: a number from 1 to 16 has to follow -j, and not {word}");
    }
    match before.first() {
        None if !word.starts_with('-') => of_unknown(rt, "order", &ORDERS, word),
        Some(order) if takes_none(order.0.as_str()) => {
            eprintln!(rt; "tup: no word may follow {order}: {word}", order = order.0)
        }
        _ if OPTIONS.contains(&word) => {
            eprintln!(rt;
                "tup: {word} stands there twice, or beside a word that it doesn't go with"
            )
        }
        _ if word.starts_with('-') => of_unknown(rt, "option of an update", &OPTIONS, word),
        _ => eprintln!(rt; "tup: only options may follow there: {word}"),
    }
}

/// Whether no word may follow an order.
fn takes_none(order: &str) -> bool {
    matches!(
        order,
        "init" | "todo" | "verify" | "outputs" | "clean" | "demo"
    )
}

/// Says that there is no order, or no option, of this name, and which one is near.
fn of_unknown(rt: HostRuntime, what: &str, known: &[&str], word: &str) -> std::io::Result<()> {
    match known.iter().find(|one| is_near(one, word)) {
        Some(near) => eprintln!(rt; "tup: no such {what}: {word}: did you mean {near}?"),
        None => eprintln!(rt; "tup: no such {what}: {word}: `tup --help` lists what there is"),
    }
}

/// Whether a word is another with one letter more, less, another or changed places with its neighbour; or one begins with the other.
fn is_near(known: &str, word: &str) -> bool {
    let (known, word) = (known.as_bytes(), word.as_bytes());
    if word.len() >= 2 && (known.starts_with(word) || word.starts_with(known)) {
        return true;
    }
    let (known, word) = without_front(known, word);
    let (known, word) = without_back(known, word);
    match (known, word) {
        ([] | [_], [] | [_]) => true,
        ([a, b], [c, d]) => a == d && b == c,
        _ => false,
    }
}

/// Two words without the letters that both begin with, as far as a known word goes.
fn without_front<'a>(mut known: &'a [u8], mut word: &'a [u8]) -> (&'a [u8], &'a [u8]) {
    for _ in 0..LONGEST {
        match (known, word) {
            ([a, more @ ..], [b, others @ ..]) if a == b => {
                known = more;
                word = others;
            }
            _ => break,
        }
    }
    (known, word)
}

/// Two words without the letters that both end with, as far as a known word goes.
fn without_back<'a>(mut known: &'a [u8], mut word: &'a [u8]) -> (&'a [u8], &'a [u8]) {
    for _ in 0..LONGEST {
        match (known, word) {
            ([more @ .., a], [others @ .., b]) if a == b => {
                known = more;
                word = others;
            }
            _ => break,
        }
    }
    (known, word)
}
