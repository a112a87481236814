//! The contents of one element: a boolean, an integer, a visible text, octets of a stated count.

ghost use Rattle.std.specs.Prelude.{◌≡◌, ◌≤◌, ◌<◌, ◌+◌, ◌-◌, ◌^◌, ◌≤ℤ◌, ℤ, Bool, List, ℕ, Ok, Err, length, IfOk, IfErr, IsOk, false};
ghost use Rattle.std.specs.List.{list_all};
ghost use Rattle.ber_core.specs.Contents.{AreVisible, SpellsBoolean, BooleanFault, SpellsInteger, IntegerFault, SpellsVisible, VisibleFault, SpellsCounted, CountedFault, IsContents, is_visible};
ghost use Rattle.ber_core.specs.computed.ContentsReading.{all_visible_at, boolean_at, counted_at, integer_at, visible_at};
ghost use Rattle.ber_core.specs.Element.{contents_of};
ghost use Rattle.ber_core.specs.computed.Reading.{Gives};
ghost use Rattle.ber_core.specs.declared.fault.Fault.{Fault};

use crate::element::Header;
use crate::fault::{Cause, Fault};
use crate::looking::{Visible, are_all, front_count};
use crate::reading::any_integer;

/// The boolean that the contents behind `header` spell (ISO/IEC 8825-1, 8.2).
///
/// # Errors
///
/// `BooleanLength` at the identifier's place plus 1, where the contents are not one octet.
#[inline(always)]
pub fn boolean(octets: &[u8], header: &Header) -> Result<bool, Fault>
    requires behind { header.now.at < header.now.contents_from }
    requires ordered { header.now.contents_from ≤ header.now.contents_to }
    requires inside { header.now.contents_to ≤ length octets.now }
    ensures found { IfOk result (λ b. SpellsBoolean b (contents_of octets.now header.now)) }
    ensures only { (b : Bool) → SpellsBoolean b (contents_of octets.now header.now) → result ≡ Ok b }
    ensures fault { IfErr result (λ f. BooleanFault f header.now.at (contents_of octets.now header.now)) }
    ensures fault_only { (f : Fault) → BooleanFault f header.now.at (contents_of octets.now header.now) → result ≡ Err f }
    ensures exact { result ≡ boolean_at header.now.at (contents_of octets.now header.now) }
{
    boolean_of(&octets[header.contents_from..header.contents_to], header.at)
}

/// The boolean that contents spell whose identifier stands at the place `at`.
///
/// # Errors
///
/// `BooleanLength` at that place plus 1, where the contents are not one octet.
#[inline(always)]
pub fn boolean_of(contents: &[u8], at: usize) -> Result<bool, Fault>
    requires fits { at + 1 < 2 ^ 64 }
    ensures found { IfOk result (λ b. SpellsBoolean b contents.now) }
    ensures only { (b : Bool) → SpellsBoolean b contents.now → result ≡ Ok b }
    ensures fault { IfErr result (λ f. BooleanFault f at contents.now) }
    ensures fault_only { (f : Fault) → BooleanFault f at contents.now → result ≡ Err f }
    ensures exact { result ≡ boolean_at at contents.now }
{
    truth(contents, at)
}

// The boolean, as reading gives it.
#[inline(always)]
#[tactic(auto, unfolding(crate::specs::computed::ContentsReading::boolean_at))]
fn truth(contents: &[u8], at: usize) -> Result<bool, Fault>
    requires { at + 1 < 2 ^ 64 }
    ensures { result ≡ boolean_at at contents.now }
{
    match contents {
        [number] => Ok(*number != 0),
        _ => Err(Cause::BooleanLength.at(at + 1)),
    }
}

/// The integer from `low` to `high` that the contents behind `header` spell (ISO/IEC 8825-1, 8.3).
///
/// # Errors
///
/// `IntegerLength` at the identifier's place plus 1, where the contents have no octet or over nine;
/// `IntegerRange` at the first octet of the contents, where the integer lies outside the range.
#[inline(always)]
pub fn integer_in(octets: &[u8], header: &Header, low: i128, high: i128) -> Result<i128, Fault>
    requires behind { header.now.at < header.now.contents_from }
    requires ordered { header.now.contents_from ≤ header.now.contents_to }
    requires inside { header.now.contents_to ≤ length octets.now }
    ensures found { IfOk result (λ n. SpellsInteger low high n (contents_of octets.now header.now)) }
    ensures only { (n : ℤ) → SpellsInteger low high n (contents_of octets.now header.now) → result ≡ Ok n }
    ensures fault { IfErr result (λ f. IntegerFault f low high header.now.at header.now.contents_from (contents_of octets.now header.now)) }
    ensures fault_only { (f : Fault) → IntegerFault f low high header.now.at header.now.contents_from (contents_of octets.now header.now) → result ≡ Err f }
    ensures exact { result ≡ integer_at low high header.now.at header.now.contents_from (contents_of octets.now header.now) }
{
    let contents = &octets[header.contents_from..header.contents_to];
    integer_of(contents, header.at, header.contents_from, low, high)
}

/// The integer from `low` to `high` that contents spell whose identifier stands at the place `at`, and whose first
/// octet stands at `from`.
///
/// # Errors
///
/// `IntegerLength` at the identifier's place plus 1, where the contents have no octet or over nine;
/// `IntegerRange` at the first octet of the contents, where the integer lies outside the range.
#[inline(always)]
pub fn integer_of(
    contents: &[u8],
    at: usize,
    from: usize,
    low: i128,
    high: i128,
) -> Result<i128, Fault>
    requires fits { at + 1 < 2 ^ 64 }
    ensures found { IfOk result (λ n. SpellsInteger low high n contents.now) }
    ensures only { (n : ℤ) → SpellsInteger low high n contents.now → result ≡ Ok n }
    ensures fault { IfErr result (λ f. IntegerFault f low high at from contents.now) }
    ensures fault_only { (f : Fault) → IntegerFault f low high at from contents.now → result ≡ Err f }
    ensures exact { result ≡ integer_at low high at from contents.now }
    ensures within { IfOk result (λ n. (low ≤ℤ n) × (n ≤ℤ high)) }
{
    ranged(contents, at, from, low, high)
}

// The integer, as reading gives it.
#[inline(always)]
#[tactic(auto, unfolding(crate::specs::computed::ContentsReading::integer_at))]
fn ranged(contents: &[u8], at: usize, from: usize, low: i128, high: i128) -> Result<i128, Fault>
    requires { at + 1 < 2 ^ 64 }
    ensures exact { result ≡ integer_at low high at from contents.now }
    ensures within { IfOk result (λ n. (low ≤ℤ n) × (n ≤ℤ high)) }
{
    let number = any_integer(contents, at)?;
    if low <= number && number <= high {
        Ok(number)
    } else {
        Err(Cause::IntegerRange.at(from))
    }
}

/// The text that the contents behind `header` are, a part of `octets` (ISO/IEC 8825-1, 8.23).
///
/// # Errors
///
/// `NotVisible` at the first octet outside 20 to 7E.
#[inline(always)]
pub fn visible<'a>(octets: &'a [u8], header: &Header) -> Result<&'a [u8], Fault>
    requires ordered { header.now.contents_from ≤ header.now.contents_to }
    requires inside { header.now.contents_to ≤ length octets.now }
    ensures found { IfOk result (λ text. SpellsVisible text.now (contents_of octets.now header.now)) }
    ensures only { (text : List ℕ) → SpellsVisible text (contents_of octets.now header.now) → IsOk result }
    ensures fault { IfErr result (λ f. VisibleFault f header.now.contents_from (contents_of octets.now header.now)) }
    ensures fault_only { (f : Fault) → VisibleFault f header.now.contents_from (contents_of octets.now header.now) → result ≡ Err f }
    ensures exact { Gives (λ text. text.now) result (visible_at header.now.contents_from (contents_of octets.now header.now)) }
    ensures part { IfOk result (λ text. IsContents text octets.entry header.now) }
{
    visible_behind(octets, header)
}

// The text, as reading gives it.
#[inline(always)]
fn visible_behind<'a>(octets: &'a [u8], header: &Header) -> Result<&'a [u8], Fault>
    requires ordered { header.now.contents_from ≤ header.now.contents_to }
    requires inside { header.now.contents_to ≤ length octets.now }
    ensures exact { Gives (λ text. text.now) result (visible_at header.now.contents_from (contents_of octets.now header.now)) }
    ensures part { IfOk result (λ text. IsContents text octets.entry header.now) }
{
    let contents = &octets[header.contents_from..header.contents_to];
    check_visible(contents, header.contents_from)?;
    Ok(contents)
}

/// Whether each of the octets, the first of which stands at the place `from`, is visible.
///
/// # Errors
///
/// `NotVisible` at the first octet outside 20 to 7E.
#[inline(always)]
pub fn check_visible(octets: &[u8], from: usize) -> Result<(), Fault>
    requires fits { from + length octets.now < 2 ^ 64 }
    ensures found { IfOk result (λ _. AreVisible octets.now) }
    ensures only { AreVisible octets.now → result ≡ Ok tt }
    ensures fault { IfErr result (λ f. VisibleFault f from octets.now) }
    ensures fault_only { (f : Fault) → VisibleFault f from octets.now → result ≡ Err f }
    ensures exact { result ≡ all_visible_at from octets.now }
{
    each_visible(octets, from)
}

// The same, as reading from left to right gives it. Nearly always all are visible, which a call tells that puts no fault
// together.
#[inline(always)]
fn each_visible(octets: &[u8], from: usize) -> Result<(), Fault>
    requires { from + length octets.now < 2 ^ 64 }
    ensures exact { result ≡ all_visible_at from octets.now }
{
    if is_visible_text(octets) {
        return Ok(());
    }
    Err(first_not_visible(octets, from))
}

// Whether all octets are visible. Never inlined, so that readers of texts are small enough to be.
#[inline(never)]
fn is_visible_text(octets: &[u8]) -> bool
    ensures { result ≡ list_all is_visible octets.now }
{
    are_all(octets, Visible)
}

// The fault of octets of which one is not visible.
#[cold]
#[inline(never)]
fn first_not_visible(octets: &[u8], from: usize) -> Fault
    requires fits { from + length octets.now < 2 ^ 64 }
    requires some { list_all is_visible octets.now ≡ false }
    ensures { all_visible_at from octets.now ≡ Err result }
{
    Cause::NotVisible.at(from + front_count(octets, Visible))
}

/// The contents behind `header`, a part of `octets`, which have to be `count` octets.
///
/// # Errors
///
/// `FixedLength` at the identifier's place plus 1, where they are not.
#[inline(always)]
pub fn counted<'a>(octets: &'a [u8], header: &Header, count: usize) -> Result<&'a [u8], Fault>
    requires behind { header.now.at < header.now.contents_from }
    requires ordered { header.now.contents_from ≤ header.now.contents_to }
    requires inside { header.now.contents_to ≤ length octets.now }
    ensures found { IfOk result (λ contents. SpellsCounted count contents.now (contents_of octets.now header.now)) }
    ensures only { (contents : List ℕ) → SpellsCounted count contents (contents_of octets.now header.now) → IsOk result }
    ensures fault { IfErr result (λ f. CountedFault f count header.now.at (contents_of octets.now header.now)) }
    ensures fault_only { (f : Fault) → CountedFault f count header.now.at (contents_of octets.now header.now) → result ≡ Err f }
    ensures exact { Gives (λ contents. contents.now) result (counted_at count header.now.at (contents_of octets.now header.now)) }
    ensures part { IfOk result (λ contents. IsContents contents octets.entry header.now) }
{
    counted_behind(octets, header, count)
}

// The contents of a stated count, as reading gives them.
#[inline(always)]
#[tactic(auto, unfolding(crate::specs::computed::ContentsReading::counted_at))]
fn counted_behind<'a>(octets: &'a [u8], header: &Header, count: usize) -> Result<&'a [u8], Fault>
    requires behind { header.now.at < header.now.contents_from }
    requires ordered { header.now.contents_from ≤ header.now.contents_to }
    requires inside { header.now.contents_to ≤ length octets.now }
    ensures exact { Gives (λ contents. contents.now) result (counted_at count header.now.at (contents_of octets.now header.now)) }
    ensures part { IfOk result (λ contents. IsContents contents octets.entry header.now) }
{
    let contents = &octets[header.contents_from..header.contents_to];
    if contents.len() == count {
        Ok(contents)
    } else {
        Err(Cause::FixedLength.at(header.at + 1))
    }
}
