ghost use Rattle.std.specs.Prelude.{◌≡◌, ◌≢◌, ◌<◌, ◌^◌, ◌-◌, ◌⊎◌, length, List, All, AllPairs, IfOk, IfErr, IsErrOf};
ghost use Rattle.hys_lex.specs.Cut.{Cut, IsFirstFault, IsTokenOf, Precedes};
ghost use Rattle.hys_lex.specs.Reading.{fault_at};
ghost use Rattle.hys_lex.specs.declared.token.Token.{Token as CutToken};
ghost use Rattle.hys_lex.specs.declared.cut.LexFault.{LexFault as Fault};
ghost use Rattle.hys_lex.specs.declared.cut.LexFault.TheVariants.{Memory};

use crate::piece::{Cause, Found, piece};
use crate::token::Token;
use std::alloc::{AllocFailed, Global};

/// Why a text has no cut, and the place of the first byte of what has none.
#[derive(Clone, Copy, Debug, PartialEq, Eq)]
pub enum LexFault {
    /// No blank, comment or token begins at the byte.
    Byte(u32),
    /// The comment that begins at the byte has no end.
    Comment(u32),
    /// The name at the byte has over 64 bytes, or the literal there over 32 characters.
    Long(u32),
    /// Out of memory.
    Memory,
}

impl<T: Drop> From<AllocFailed<T>> for LexFault {
    ghost from_gives = { λ _ e. e ≡ Memory };

    fn from(_: AllocFailed<T>) -> LexFault {
        LexFault::Memory
    }
}

fn fault(cause: Cause, at: u32) -> LexFault
    ensures { result ≡ fault_at cause at }
{
    match cause {
        Cause::Byte => LexFault::Byte(at),
        Cause::Comment => LexFault::Comment(at),
        Cause::Long => LexFault::Long(at),
    }
}

/// The tokens of a text, in order. An `Err` is the first fault from the left, and then the text has no
/// cut, or want of memory.
pub fn tokens(alloc: Global, text: &[u8]) -> Result<Vec<Token>, LexFault>
    requires { length text.now < 2 ^ 32 - 1 }
    ensures ok { IfOk result (λ v. Cut text.now v.items) }
    ensures only { IfOk result (λ v. (tokens : List CutToken) → Cut text.now tokens → tokens ≡ v.items) }
    ensures spans { IfOk result (λ v. All (IsTokenOf text.now) v.items) }
    ensures rising { IfOk result (λ v. AllPairs Precedes v.items) }
    ensures err { IfErr result (λ e. e ≢ LexFault.Memory → IsFirstFault text.now e) }
    ensures no_cut { IfErr result (λ e. e ≢ LexFault.Memory → (tokens : List CutToken) → Cut text.now tokens → ⊥) }
    ensures exact { (fault : Fault) → IsFirstFault text.now fault → IsErrOf result fault ⊎
        IsErrOf result LexFault.Memory }
{
    let mut found = Vec::new(alloc);
    let mut at = 0;
    while at < text.len() {
        match piece(&text[at..]) {
            Err(cause) => return Err(fault(cause, at as u32)),
            Ok(Found::Gap(len)) => at += len,
            Ok(Found::Token(kind, len)) => {
                found.push(Token {
                    kind,
                    from: at as u32,
                    to: (at + len) as u32,
                })?;
                at += len;
            }
        }
    }
    Ok(found)
}
