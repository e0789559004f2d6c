// Nodes over nodes.
ghost use Rattle.std.specs.Prelude.{◌≡◌, ◌++◌, ◌∷◌, [], OnOk, IfErr};
ghost use Rattle.py_grammar.specs.StmtGrammar.{statement};
ghost use Rattle.py_grammar.specs.ModuleGrammar.{parameter, function};

use expr_parser::fault::Refused;
use expr_parser::fixed::Word;
use py_base::{Place, Text};
use raw_syntax::{RawFunc, RawParam, RawStmt, RawStmtForm, RawTy};
use sqlite_items::Items;

/// The statement of this form at this place.
pub fn stmt_node(place: Place, form: RawStmtForm) -> RawStmt
    ensures { result ≡ statement place form }
{
    RawStmt { place, form }
}

/// A parameter more behind the others.
pub fn push_param(list: &mut Items<RawParam>, word: Word, ty: Option<RawTy>) -> Result<(), Refused>
    ensures ok { OnOk result (list.new ≡ list.old ++ parameter word.place word.text ty ∷ []) }
    ensures err { IfErr result (λ f. f ≡ Refused.OutOfMemory) }
{
    list.push(RawParam {
        place: word.place,
        name: word.text,
        ty,
    })?;
    Ok(())
}

/// A decorator's name more behind the others.
pub fn push_mark(list: &mut Items<Text>, name: Text) -> Result<(), Refused>
    ensures ok { OnOk result (list.new ≡ list.old ++ name ∷ []) }
    ensures err { IfErr result (λ f. f ≡ Refused.OutOfMemory) }
{
    list.push(name)?;
    Ok(())
}

/// What stands in front of a function's type: its decorators, its name and its parameters.
#[derive(Debug, Drop)]
pub struct Head {
    pub marks: Items<Text>,
    pub word: Word,
    pub params: Items<RawParam>,
}

/// The head of these parts.
pub fn head_of(marks: Items<Text>, word: Word, params: Items<RawParam>) -> Head
    ensures marks { result.marks ≡ marks }
    ensures word { result.word ≡ word }
    ensures params { result.params ≡ params }
{
    Head {
        marks,
        word,
        params,
    }
}

/// The function of these parts, whose place is its name.
pub fn func_node(head: Head, ret: RawTy, body: Items<RawStmt>) -> RawFunc
    ensures { result ≡ function head.word.place head.marks head.word.text head.params ret body }
{
    RawFunc {
        place: head.word.place,
        marks: head.marks,
        name: head.word.text,
        params: head.params,
        ret,
        body,
    }
}
