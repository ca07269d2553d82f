//! Readers of structured fields: parsers over lists, and their equality with the grammar.
#![tactic(auto)]

ghost use Rattle.sfv_model.specs.Claims.{ReadIsAccepted, EventsReach};
ghost use Rattle.sfv_spec.specs.Statements.{FieldOrFault, FaultRejects, OneFault, RuledOrAtReach, JoinedLines};

/// The reader of a field accepts a text if and only if the grammar does, with the same value.
pub fn read_is_accepted()
    ensures { ReadIsAccepted }
{}

/// The events before a syntax error are a prefix of the events of some field. The text of that field begins with all
/// bytes of this text up to its reach.
pub fn events_reach()
    ensures { EventsReach }
{}

/// Every text has a field or a syntax error.
pub fn field_or_fault()
    ensures { FieldOrFault }
{}

/// A text with a syntax error is rejected. The index of the error is at most the length of the text.
pub fn fault_rejects()
    ensures { FaultRejects }
{}

/// A text has at most one syntax error.
pub fn one_fault()
    ensures { OneFault }
{}

/// A syntax error follows one of the rules, or its index is the reach.
pub fn ruled_or_at_reach()
    ensures { RuledOrAtReach }
{}

/// The lines of a list or of a dictionary, each with a member, have the same members as the joined lines.
pub fn joined_lines()
    ensures { JoinedLines }
{}
