//! Where the links lead that a command made. What it missed through one isn't known by its own path once the link is gone: so that is
//! asked for, whether it was or not.
use std::alloc::{AllocError, Global};
use tup_path::{Bytes, Items};
use tup_strace::{Act, Answer};
use tup_trace::{Call, Token};

/// A link that was made.
#[derive(Clone, Copy)]
struct Link<'a> {
    /// The last of its names.
    name: &'a [u8],
    /// Where it leads.
    target: &'a [u8],
}

/// Asks for where the links lead that these calls made, at the places that the acts say.
pub(crate) fn pointed(
    alloc: Global,
    calls: &[Call],
    acts: &[Act],
) -> Result<Items<Act>, AllocError> {
    let mut asks = Items::new(alloc);
    let links = links(alloc, calls)?;
    for act in acts {
        if let Act::Write { place, .. } = act {
            add(alloc, &mut asks, place.as_slice(), links.as_slice())?;
        }
    }
    Ok(asks)
}

/// The links that were made.
fn links(alloc: Global, calls: &[Call]) -> Result<Vec<Link<'_>>, AllocError> {
    let mut links = Vec::new(alloc);
    for call in calls {
        if let Some(link) = link_of(call) {
            links.push(link)?;
        }
    }
    Ok(links)
}

/// The link that a call made, if it made one.
fn link_of(call: &Call) -> Option<Link<'_>> {
    if ![b"symlink".as_slice(), b"symlinkat".as_slice()].contains(&call.name.as_slice()) {
        return None;
    }
    let parts = call.parts.as_slice();
    if parts.iter().any(|part| is_word(part, b"-1".as_slice())) {
        return None;
    }
    let (target, link) = texts(parts)?;
    let name = link.rsplit(|byte| *byte == b'/').next()?;
    Some(Link { name, target })
}

/// The first two texts in quotes.
fn texts(parts: &[Token]) -> Option<(&[u8], &[u8])> {
    let mut first = None;
    for part in parts {
        if let Token::Quoted(text) = part {
            match first {
                Some(target) => return Some((target, text.as_slice())),
                None => first = Some(text.as_slice()),
            }
        }
    }
    None
}

/// Whether a part is this word.
fn is_word(part: &Token, word: &[u8]) -> bool {
    match part {
        Token::Word(text) => text.as_slice() == word,
        _ => false,
    }
}

/// Adds an ask for each of these links that may have been made at a place.
fn add(
    alloc: Global,
    asks: &mut Items<Act>,
    place: &[u8],
    links: &[Link],
) -> Result<(), AllocError> {
    for link in links {
        if let Some(folder) = place.strip_suffix(link.name) {
            if folder.ends_with(b"/".as_slice()) {
                asks.push(ask(alloc, folder, link.target)?)?;
            }
        }
    }
    Ok(())
}

/// Asks for what a text names from a folder, whose place ends with a slash.
fn ask(alloc: Global, folder: &[u8], target: &[u8]) -> Result<Act, AllocError> {
    let mut place = Vec::new(alloc);
    if !target.starts_with(b"/".as_slice()) {
        place.extend_from_slice(folder)?;
    }
    place.extend_from_slice(target)?;
    Ok(Act::Ask {
        place: Bytes::new(place),
        follows: true,
        answer: Answer::Unclear,
    })
}
