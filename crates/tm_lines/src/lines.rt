//! A text as lines of tokens, and the loop that reads a file line by line.

ghost use Rattle.std.specs.Prelude.{◌≡◌, ◌<◌, ◌≤◌, ◌+◌, ◌-◌, ◌^◌, List, [], ◌∷◌, length, map, find, Option, MatchOption, IfSome, IfOk, position};
ghost use Rattle.std.specs.List.{list_all};
ghost use Rattle.std.specs.Str.{bytes_eq};
ghost use Rattle.tm_lines.specs.Steps.{Answers, Gives};
ghost use Rattle.tm_lines.specs.Lines.{is_line_end, pieces, without_return, is_plain, is_gap, is_ink, tokens, is_skipped, tokens_read, said, within, said_within, header, is_header, is_opened, opening, from_header, step, lines_on};

use crate::{Fault, Reason};
use std::alloc::{AllocError, Global};

/// A header is a name and a version.
const HEADER_TOKENS: usize = 2;

/// Whether a token is this word.
pub fn spells(token: &[u8], word: &[u8]) -> bool
    ensures { result ≡ bytes_eq token.now word.now }
{
    token == word
}

/// A value that a file adds to line by line.
pub trait Format {
    ghost use Rattle.std.specs.Prelude.{◌≡◌, ℕ, ◌<◌, List, length, Result, Err, map, IfSome};
    ghost use Rattle.tm_lines.specs.declared.fault.Reason.{Reason};
    ghost use Rattle.tm_lines.specs.declared.fault.Reason.TheVariants.{Form};
    ghost use Rattle.tm_lines.specs.Steps.{Answers};

    ghost next: { Self → List (List ℕ) → Result Self Reason };

    /// How many tokens a line has at most, where there is a bound: a line of more is refused by its form, and
    /// its tokens are counted but not collected.
    fn most_tokens() -> Option<usize>
        ensures { IfSome result (λ most. (state : Self) (tokens : List (List ℕ)) → most < length tokens → next state tokens ≡ Err Form) };

    /// Does what a line of these tokens says.
    fn take(&mut self, alloc: Global, tokens: &[&[u8]]) -> Result<(), Reason>
        ensures { Answers (λ _. self.new) result (next self.old (map (λ token. token.now) tokens.now)) };
}

/// Where the first line ends.
fn line_end(text: &[u8]) -> Option<usize>
    ensures { result ≡ position is_line_end text.now }
{
    text.iter().position(|c| *c == b'\n')
}

/// The first line without its LF, and what follows that; `None` where there is no line.
fn first_piece(text: &[u8]) -> Option<(&[u8], &[u8])>
    ensures parts { MatchOption result (pieces text.now ≡ []) (λ cut. pieces text.now ≡ cut.0.now ∷ pieces cut.1.now) }
    ensures shorter { IfSome result (λ cut. length cut.1.now < length text.now) }
{
    if text.is_empty() {
        return None;
    }
    match line_end(text) {
        Some(end) => Some((&text[..end], &text[end + 1..])),
        None => Some((text, &text[text.len()..])),
    }
}

/// The line without one CR at its end.
fn without_return(line: &[u8]) -> &[u8]
    ensures { result.now ≡ without_return line.now }
{
    match line {
        [front @ .., b'\r'] => front,
        _ => line,
    }
}

/// Whether the byte may stand in a line: a tab, or 20 to 7e hexadecimal.
fn is_plain(c: u8) -> bool
    ensures { result ≡ is_plain c }
{
    c == b'\t' || (b' '..=b'~').contains(&c)
}

/// Whether the byte parts two tokens.
fn is_gap(c: u8) -> bool
    ensures { result ≡ is_gap c }
{
    c == b' ' || c == b'\t'
}

/// Whether each byte of a line may stand there.
fn is_plain_line(line: &[u8]) -> bool
    ensures { result ≡ list_all is_plain line.now }
{
    line.iter().all(|c| is_plain(*c))
}

/// The first byte of a line's tokens.
fn first_ink(line: &[u8]) -> Option<u8>
    ensures { result ≡ find is_ink line.now }
{
    line.iter().copied().find(|c| !is_gap(*c))
}

/// Whether a line has no tokens, or the first of them begins with `#`.
fn is_skipped(line: &[u8]) -> bool
    ensures { result ≡ is_skipped line.now }
{
    match first_ink(line) {
        Some(c) => c == b'#',
        None => true,
    }
}

/// The tokens of a line.
fn tokens_of(alloc: Global, line: &[u8]) -> Result<Vec<&[u8]>, AllocError>
    ensures { IfOk result (λ found. map (λ token. token.now) found.items ≡ tokens line.now) }
{
    line.split(|c| is_gap(*c))
        .filter(|token| !token.is_empty())
        .collect(alloc)
}

/// How many tokens a line has.
fn count_tokens(line: &[u8]) -> usize
    ensures { result ≡ length (tokens line.now) }
{
    line.split(|c| is_gap(*c))
        .filter(|token| !token.is_empty())
        .count()
}

/// The tokens of a line as it stands in a file; none where the line is skipped, and Form where there are more of
/// them than there may be.
fn tokens_said(alloc: Global, most: Option<usize>, line: &[u8]) -> Result<Vec<&[u8]>, Reason>
    ensures { Answers (λ found. map (λ token. token.now) found.items) result (said_within most line.now) }
{
    let line = without_return(line);
    if !is_plain_line(line) {
        return Err(Reason::Form);
    }
    if is_skipped(line) {
        return Ok(Vec::new(alloc));
    }
    match most {
        Some(most) if count_tokens(line) > most => Err(Reason::Form),
        _ => Ok(tokens_of(alloc, line)?),
    }
}

/// Whether the tokens are those of the header of this name and version.
fn is_header(name: &[u8], version: &[u8], tokens: &[&[u8]]) -> bool
    ensures { result ≡ is_header (header name.now version.now) (map (λ token. token.now) tokens.now) }
{
    match tokens {
        [first, second] => spells(first, name) && spells(second, version),
        _ => false,
    }
}

/// Whether a line is the header; it is skipped where it is not.
#[tactic(auto, using(crate::proofs::Long::long_opening))]
fn is_opening(alloc: Global, name: &[u8], version: &[u8], line: &[u8]) -> Result<bool, Reason>
    ensures { Answers (λ opened. opened) result (opening (header name.now version.now) line.now) }
{
    let tokens = tokens_said(alloc, Some(HEADER_TOKENS), line)?;
    if tokens.is_empty() {
        return Ok(false);
    }
    if is_header(name, version, &tokens) {
        Ok(true)
    } else {
        Err(Reason::Form)
    }
}

/// The number of the line below the header of this name and version, and the text from there on.
pub fn below_header<'a>(
    alloc: Global,
    name: &[u8],
    version: &[u8],
    text: &'a [u8],
) -> Result<(u32, &'a [u8]), Fault>
    requires { length text.now < 2 ^ 32 - 1 }
    ensures body { Gives (λ body. (body.0, pieces body.1.now)) result (from_header (header name.now version.now) 1 (pieces text.now)) }
    ensures numbers { IfOk result (λ body. body.0 + length body.1.now ≤ length text.now + 1) }
{
    let mut number = 1;
    let mut left = text;
    while let Some((line, rest)) = first_piece(left) {
        match is_opening(alloc, name, version, line) {
            Ok(true) => return Ok((number + 1, rest)),
            Ok(false) => {}
            Err(reason) => return Err(Fault::on_line(number, reason)),
        }
        left = rest;
        number += 1;
    }
    Err(Fault::on_line(number, Reason::Missing))
}

/// Does what a line says.
#[tactic(auto, using(crate::proofs::Long::long_line))]
fn take_line<F: Format>(alloc: Global, format: &mut F, line: &[u8]) -> Result<(), Reason>
    ensures { Answers (λ _. format.new) result (step F.next format.old line.now) }
{
    let tokens = tokens_said(alloc, F::most_tokens(), line)?;
    if tokens.is_empty() {
        return Ok(());
    }
    format.take(alloc, &tokens)
}

/// Does what each line of the text says, the lines being numbered from `first` on. The answer is the
/// number of the line that would come next.
pub fn take_lines<F: Format>(
    alloc: Global,
    format: &mut F,
    first: u32,
    text: &[u8],
) -> Result<u32, Fault>
    requires { first + length text.now < 2 ^ 32 }
    ensures { Gives (λ number. (number, format.new)) result (lines_on F.next first format.old (pieces text.now)) }
{
    let mut number = first;
    let mut left = text;
    while let Some((line, rest)) = first_piece(left) {
        take_line(alloc, format, line).map_err(|reason| Fault::on_line(number, reason))?;
        left = rest;
        number += 1;
    }
    Ok(number)
}
