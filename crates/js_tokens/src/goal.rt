//! What a reader of tokens looks for.

/// Where in the grammar the next token stands.
#[derive(Clone, Copy, Debug, PartialEq, Eq)]
pub enum Goal {
    /// Where an operand or a statement may begin: `/` begins a regular expression.
    Operand,
    /// Where an operator may stand: `/` and `}` are marks.
    Operator,
    /// Where a template's substitution may end: `}` goes on with the template, `/` is a mark.
    Template,
}

/// What begins at a place, by its first bytes.
#[derive(Clone, Copy, Debug)]
pub enum Sort {
    /// A string.
    Str,
    /// A template.
    Template,
    /// The rest of a template, behind a substitution.
    Rest,
    /// A regular expression.
    Regex,
    /// A number.
    Number,
    /// A name or a word.
    Identifier,
    /// A mark, or nothing.
    Mark,
}
