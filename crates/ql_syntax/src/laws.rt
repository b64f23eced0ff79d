//! Laws: bytes are one query at most, or have one fault; a query asks for one format at most; and what the limits are.

ghost use Rattle.std.specs.Prelude.{◌≡◌, ◌≢◌, ◌≤◌, ◌⊎◌, ◌-◌, ℕ, List, [], Option, length, drop};
ghost use Rattle.ql_syntax.specs.Formats.{HasFormat};
ghost use Rattle.ql_syntax.specs.Grammar as grammar;
ghost use Rattle.ql_syntax.specs.LawfulQueries.{IsQuery};
ghost use Rattle.ql_syntax.specs.Queries.{HasFault, Reads, query};
ghost use Rattle.ql_syntax.specs.Statements.{Statements};
ghost use Rattle.ql_syntax.specs.declared.cause.QlCause.{QlCause};
ghost use Rattle.ql_syntax.specs.declared.cause.QlCause.TheVariants as causes;
ghost use Rattle.ql_syntax.specs.declared.fault.QlFault.{QlFault};
ghost use Rattle.ql_syntax.specs.declared.format.Format.{Format};
ghost use Rattle.ql_syntax.specs.declared.parser.TheConstants.{TEXT_LIMIT};
ghost use Rattle.ql_syntax.specs.declared.statements.TheConstants.{NESTING_LIMIT};

/// A law: bytes read as one query at most.
pub fn one_query()
    ensures { (bytes : List ℕ) (first second : Statements) → Reads bytes first → Reads bytes second
        → first ≡ second }
{}

/// A law: bytes that read as a query have no fault.
pub fn never_both()
    ensures { (bytes : List ℕ) (statements : Statements) (fault : QlFault) → Reads bytes statements
        → HasFault bytes fault → ⊥ }
{}

/// A law: bytes have one fault at most.
pub fn one_fault()
    ensures { (bytes : List ℕ) (first second : QlFault) → HasFault bytes first
        → HasFault bytes second → first ≡ second }
{}

/// A law: the settings of bytes ask for one format at most.
pub fn one_format()
    ensures { (bytes : List ℕ) (first second : Option Format) → HasFormat bytes first → HasFormat bytes second → first ≡ second }
{}

/// A law: bytes read as a query or have a fault.
pub fn one_of_both()
    ensures { (bytes : List ℕ) → ((statements : Statements) × Reads bytes statements)
        ⊎ ((fault : QlFault) × HasFault bytes fault) }
{}

/// A law: what bytes read as keeps what every query does.
pub fn lawful_queries()
    ensures { (bytes : List ℕ) (statements : Statements) → Reads bytes statements
        → IsQuery statements }
{}

/// A law: a fault's place is within the bytes, or at their end.
pub fn fault_place()
    ensures { (bytes : List ℕ) (fault : QlFault) → HasFault bytes fault
        → fault.byte ≤ length bytes }
{}

/// A law: no fault of bytes is that of a reader out of memory.
pub fn faults_are_not_memory()
    ensures { (bytes : List ℕ) (fault : QlFault) → HasFault bytes fault
        → fault.cause ≢ causes.Memory }
{}

/// A law: what the rules read is spelled by the grammar and keeps what every query does, with nothing left
/// after it; and what is spelled so and keeps that, the rules read.
pub fn one_language()
    ensures spelled { (bytes : List ℕ) (statements : Statements) (rest : List ℕ)
        → query.reads bytes statements rest → (rest ≡ []) × grammar.query statements bytes []
        × IsQuery statements }
    ensures read { (bytes : List ℕ) (statements : Statements) → grammar.query statements bytes []
        → IsQuery statements → query.reads bytes statements [] }
{}

/// A law: the place at which the rules stop is what is left of the text after some of its bytes.
pub fn stops_within()
    ensures { (bytes : List ℕ) (cause : QlCause) (place : List ℕ) → query.stops bytes cause place
        → drop (length bytes - length place) bytes ≡ place }
{}

/// A law: the limits of a query, as numbers: its bytes, and how deep unions and differences stand in one another.
pub fn limits_law()
    ensures text { TEXT_LIMIT ≡ 65536 }
    ensures nesting { NESTING_LIMIT ≡ 32 }
{}
