//! Texts at the start of others: what follows them. So a text is compared with one that nothing has to be put together for.
ghost use Rattle.std.specs.Prelude.{◌∷◌, []};
ghost use Rattle.std.specs.List.{flat_map};
ghost use Rattle.text_core.specs.Afters.{IsAfter};
ghost use Rattle.text_core.specs.Pieces.{escaped, quoted};

/// What follows these octets at the start of a text.
pub fn after<'a>(text: &'a [u8], front: &[u8]) -> Option<&'a [u8]>
    ensures { IsAfter text.now front.now result }
{
    text.strip_prefix(front)
}

/// What follows this octet.
pub fn after_one(text: &[u8], octet: u8) -> Option<&[u8]>
    ensures { IsAfter text.now (octet ∷ []) result }
{
    match text.split_first() {
        Some((first, rest)) if *first == octet => Some(rest),
        _ => None,
    }
}

// What follows an octet of a text as it stands between quotation marks.
fn after_octet(text: &[u8], octet: u8) -> Option<&[u8]>
    ensures { IsAfter text.now (escaped octet) result }
{
    match octet {
        b'"' | b'\\' => after(text, &[b'\\', octet]),
        _ => after_one(text, octet),
    }
}

// What follows the octets of a text as they stand between quotation marks.
fn after_escaped<'a>(text: &'a [u8], octets: &[u8]) -> Option<&'a [u8]>
    ensures { IsAfter text.now (flat_map escaped octets.now) result }
{
    let mut rest = text;
    for octet in octets {
        match after_octet(rest, *octet) {
            Some(behind) => rest = behind,
            None => return None,
        }
    }
    Some(rest)
}

/// What follows a text between quotation marks.
pub fn after_quoted<'a>(text: &'a [u8], octets: &[u8]) -> Option<&'a [u8]>
    ensures { IsAfter text.now (quoted octets.now) result }
{
    let opened = after_one(text, b'"')?;
    let behind = after_escaped(opened, octets)?;
    after_one(behind, b'"')
}
