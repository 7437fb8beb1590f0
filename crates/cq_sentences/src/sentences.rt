//! What is said of each code: one sentence, and what there is to mend, to follow the words `To mend it:`. A `#` stands
//! for a name or a number that is filled in.
//!
//! The codes are told apart by their tens, as the table of refusals in `docs/LANGUAGE.md` has them. `docs/sentences.py`
//! compares this file with the sentences there.
ghost use Rattle.std.specs.Prelude.{◌<◌, ◌≤◌};
ghost use Rattle.cq_sentences.specs.Code.{number_of};

use crate::code::{Code, Unread};

/// What is wrong, and what there is to mend.
#[derive(Clone, Copy)]
struct Said {
    sentence: &'static str,
    remedy: &'static str,
}

fn say(sentence: &'static str, remedy: &'static str) -> Said {
    Said { sentence, remedy }
}

impl Code {
    /// The sentence that says what is wrong.
    pub fn sentence(self) -> &'static str {
        said_of(self).sentence
    }

    /// What there is to mend.
    pub fn remedy(self) -> &'static str {
        said_of(self).remedy
    }
}

impl Unread {
    /// The sentence that says what is wrong.
    pub fn sentence(self) -> &'static str {
        said_of_unread(self).sentence
    }

    /// What there is to mend.
    pub fn remedy(self) -> &'static str {
        said_of_unread(self).remedy
    }
}

fn said_of(code: Code) -> Said {
    match code.number() / 10 {
        1 => said_of_tokens(code),
        2 => said_of_grammar(code),
        3 => said_of_uses(code),
        4 => said_of_parts(code),
        5 => said_of_duties(code),
        6 => said_of_models(code),
        7 => said_of_joins(code),
        _ => said_of_folders(code),
    }
}

/// What is said of the tokens of a text.
fn said_of_tokens(code: Code) -> Said
    requires low { 10 ≤ number_of code }
    requires high { number_of code < 20 }
{
    match code {
        Code::BadByte => say(
            "This byte begins no word, text or mark, makes no escape behind a backslash, or begins a text that isn't \
             UTF-8.",
            "take it out, or put it between double quotes; a file in another encoding is saved as UTF-8 first.",
        ),
        Code::OpenText => say(
            "The text that begins here isn't closed before the file ends.",
            "put a double quote where the text ends, and a backslash before each double quote within it.",
        ),
        Code::OpenComment => say(
            "The comment that begins here isn't closed before the file ends.",
            "end it with */, or begin it with // if it is one line.",
        ),
        Code::LongName => say("This word or text has more than 255 bytes.", "shorten it."),
        _ => unreachable!(),
    }
}

/// What is said of the grammar.
fn said_of_grammar(code: Code) -> Said
    requires low { 20 ≤ number_of code }
    requires high { number_of code < 30 }
{
    match code {
        Code::Syntax => say(
            "What stands before may begin a file, but # can't follow it here.",
            "look for a word or a mark that is missing or too many, here or just before, and for sections in another \
             order.",
        ),
        Code::TooDeep => say(
            "This term has more than 64 levels, or this path more than 64 names.",
            "give a part of it a name of its own: a generator, or a foreign key.",
        ),
        Code::Unsupported => say(
            "The word # begins something that this language leaves out.",
            "leave it out; docs/LANGUAGE.md says what there is.",
        ),
        Code::BadOption => say(
            "The name # is no option that may stand here.",
            "leave it out: options have no effect.",
        ),
        _ => unreachable!(),
    }
}

/// What is said of the names of declarations.
fn said_of_uses(code: Code) -> Said
    requires low { 30 ≤ number_of code }
    requires high { number_of code < 40 }
{
    match code {
        Code::NameTaken => say(
            "The name # is declared already.",
            "give one of the two another name.",
        ),
        Code::NameUnknown => say(
            "The name # isn't declared before this declaration.",
            "write a name that is declared above, or declare this one there.",
        ),
        Code::WrongKind => say(
            "The name # stands for #, and here # is wanted.",
            "write the name of what is wanted.",
        ),
        Code::WrongSchema => say(
            "What # stands for is over another schema or typeside than what it goes along with.",
            "write names that belong together, or declare the one again over the other's schema.",
        ),
        Code::NotASpan => say(
            "The two transforms that are glued along don't start in one instance.",
            "write two transforms whose declarations start in the same instance.",
        ),
        Code::WrongOperand => say(
            "The instance # isn't declared by the operation that this form asks for.",
            "declare it so; docs/LANGUAGE.md, \"Transforms that move\", has the forms.",
        ),
        Code::NoInstance => say(
            "The file declares no instance of the name that the question has.",
            "ask about an instance that the file declares.",
        ),
        Code::BadTerm => say(
            "The two texts of the question aren't two terms of one sort over the instance.",
            "write terms over the instance's generators, as its equations have them.",
        ),
        _ => unreachable!(),
    }
}

/// What is said of the parts of a declaration.
fn said_of_parts(code: Code) -> Said
    requires low { 40 ≤ number_of code }
    requires high { number_of code < 50 }
{
    match code {
        Code::Duplicate => say(
            "The name # stands already in its table.",
            "rename one of the two, or leave out an image that is given twice: types and entities share one table, \
             and functions, foreign keys and attributes another.",
        ),
        Code::Unknown => say(
            "The name # isn't declared where it may stand here.",
            "correct the name, or declare it.",
        ),
        Code::WrongCount => say(
            "Something in this part is applied to another number of arguments than it takes.",
            "give a foreign key or an attribute one argument, and a function as many as it is declared with.",
        ),
        Code::WrongSort => say(
            "The entities or types in this part don't fit together.",
            "see that both sides of an equation, an argument and its place, and an image and what it is given for are \
             of one entity or type.",
        ),
        Code::Reserved => say(
            "A constant that is empty, or begins with ? or =, is kept for nulls and built values.",
            "write another text.",
        ),
        Code::TooLarge => say(
            "A term here has more than 1,024 symbols, or the generators are more than 16,000,000.",
            "give parts of the term names of their own, or split the data.",
        ),
        Code::Missing => say(
            "Nothing is given for #.",
            "give something for it, as for each entity, foreign key, attribute, variable or generator of what is sent.",
        ),
        _ => unreachable!(),
    }
}

/// What is said of the equations that are kept.
fn said_of_duties(code: Code) -> Said
    requires low { 50 ≤ number_of code }
    requires high { number_of code < 60 }
{
    match code {
        Code::NotPreserved => say(
            "Equation # isn't kept: what it becomes doesn't follow from the equations there.",
            "send something in it elsewhere, or add what it becomes to the equations there.",
        ),
        Code::DutyDepth => say(
            "Whether equation # is kept isn't decided within depth #: new rows go on.",
            "try a greater --depth, up to 64, or add an equation that ends the chain of keys.",
        ),
        Code::DutyRows => say(
            "Whether equation # is kept isn't decided within 200,000 rows.",
            "add equations that make rows one, or take foreign keys out.",
        ),
        Code::Broken => say(
            "Equation # of the instance where the transform starts doesn't hold where it ends.",
            "send something in it elsewhere, or add what it becomes to the instance where the transform ends.",
        ),
        _ => unreachable!(),
    }
}

/// What is said of the models.
fn said_of_models(code: Code) -> Said
    requires low { 60 ≤ number_of code }
    requires high { number_of code < 70 }
{
    match code {
        Code::Depth => say(
            "The tables don't close within depth #: new rows go on.",
            "add an equation that ends the chain of keys, or try a greater --depth, up to 64.",
        ),
        Code::TooManyRows => say(
            "The tables have more than 200,000 rows.",
            "add equations that make rows one, take foreign keys out, or split the data.",
        ),
        Code::Inconsistent => say(
            "Two values become one: # and #.",
            "change one of these facts, or leave out one of these rules.",
        ),
        Code::Oversized => say(
            "What this makes is too large: at most 1,024 symbols a term, 16,000,000 rows and nulls, 1,000,000 parts \
             of a schema.",
            "split the data, or make the terms shorter.",
        ),
        Code::TooManyAnswers => say(
            "The query has more than 1,000,000 answers at #.",
            "add equations behind where, or take variables out.",
        ),
        _ => unreachable!(),
    }
}

/// What is said of joined names.
fn said_of_joins(code: Code) -> Said
    requires low { 70 ≤ number_of code }
    requires high { number_of code < 80 }
{
    match code {
        Code::NameClash => say(
            "Parts # and # give one joined name twice.",
            "rename an entity, foreign key or attribute of one of the two, or the schema itself.",
        ),
        Code::JoinedName => say(
            "Part # gives a joined name of more than 255 bytes.",
            "shorten the schema's name, or the name that it is joined with.",
        ),
        _ => unreachable!(),
    }
}

/// What is said of folders of CSV files.
fn said_of_folders(code: Code) -> Said
    requires { 80 ≤ number_of code }
{
    match code {
        Code::NotCsv => say(
            "Record # of # has another number of fields than the header, or isn't UTF-8.",
            "mend the file.",
        ),
        Code::BadHeader => say(
            "The first record of # isn't the header that the schema asks for.",
            "write the header as it is wanted: id, the attributes, and the foreign keys, in the order of the schema.",
        ),
        Code::BadCell => say(
            "The cell in record #, column # of # means nothing.",
            "write a constant of the column's type, or leave the cell empty where nothing is known.",
        ),
        Code::DoubleId => say(
            "Record # of # has an id that stood before.",
            "give each record an id of its own.",
        ),
        Code::NoSuchId => say(
            "The cell in record #, column # of # names no record.",
            "add the record, correct the id, or leave the cell empty where nothing is known.",
        ),
        Code::ManyRecords => say(
            "The records and labels of the folder are more than 16,000,000.",
            "split the data.",
        ),
        _ => unreachable!(),
    }
}

fn said_of_unread(unread: Unread) -> Said {
    match unread {
        Unread::Absent => say(
            "The file # isn't there.",
            "put it there, or call the program where it is: files are looked for in the working directory, and not \
             beside the file that names them.",
        ),
        Unread::TooLong => say(
            "The file # is too long: a program has at most 8 MiB, and a file of CSV 64 MiB.",
            "split it.",
        ),
        Unread::Failed => say(
            "The file # can't be read.",
            "see that it is a file, and that you may read it.",
        ),
    }
}
