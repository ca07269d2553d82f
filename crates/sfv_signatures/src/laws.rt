//! Laws of signature bases. A proof cites the clause of a function, which does nothing.

ghost use Rattle.sfv_signatures.specs.SignatureBase.{OneBase, OneMessage, BaseOrRule, HasOneOutcome};
ghost use Rattle.sfv_signatures.specs.HttpMessages.{HttpGives};
ghost use Rattle.sfv_signatures.specs.declared.http_message.HttpMessage.{HttpMessage};

use crate::components::Components;

/// Two signature bases are the same text only if their inner lists are equal, in order and with all parameters, and
/// each component has the same value in both.
pub fn one_base()
    ensures { OneBase }
{}

/// If two messages have the same signature base, their inner lists are equal, and each component has the same value in
/// both messages.
pub fn one_message<A: Components, B: Components>()
    ensures { (a : A) (b : B) → OneMessage (A.gives a) (B.gives b) }
{}

/// An inner list with an identifier that breaks a rule has no base. Its first broken rule is at one index.
pub fn base_or_rule<M: Components>()
    ensures { (message : M) → BaseOrRule (M.gives message) }
{}

/// An `HttpMessage` has one outcome for each component: a value, or a rule that the identifier breaks. So
/// `base_or_rule` applies to it.
pub fn one_outcome()
    ensures { (message : HttpMessage) → HasOneOutcome (HttpGives message) }
{}
