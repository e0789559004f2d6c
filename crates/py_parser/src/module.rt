// Modules.
ghost use Rattle.std.specs.Prelude.{◌≡◌, ◌<◌, ◌++◌, OnOk, IfErr, IfOk, length, [], ◌∷◌};
ghost use Rattle.py_grammar.specs.Symbols.{vitems, vmodule, doc, imports, items};
ghost use Rattle.py_grammar.specs.ModuleGrammar.{module_of};
ghost use Rattle.expr_parser.specs.Leads.{LeadsFrom};

use crate::class::class;
use crate::opening::{ItemStart, begun, item_start};
use crate::skipped::{doc, imports};
use expr_parser::expr::split;
use expr_parser::fault::Refused;
use py_base::Place;
use py_tokens::Token;
use raw_syntax::{Raw, RawItem};
use sqlite_items::Items;
use std::alloc::Global;

fn push_item(list: &mut Items<RawItem>, item: RawItem) -> Result<(), Refused>
    ensures ok { OnOk result (list.new ≡ list.old ++ item ∷ []) }
    ensures err { IfErr result (λ f. f ≡ Refused.OutOfMemory) }
{
    list.push(item)?;
    Ok(())
}

fn module_node(items: Items<RawItem>, end: Place) -> Raw
    ensures { result ≡ module_of items end }
{
    Raw { items, end }
}

// The items of a module, up to the end of the text.
#[tactic(auto, using(crate::proofs::ModuleRows::item_rows))]
fn items(alloc: Global, ts: &[Token]) -> Result<(Raw, &[Token]), Refused>
    ensures leads { LeadsFrom (items ∷ []) (vitems [] ∷ []) ts.now (λ x. vmodule x.0) (λ x. x.1.now) result }
{
    let mut list: Items<RawItem> = Items::new(alloc);
    let mut rest = ts;
    'items: while let Some((first, after)) = split(rest) {
        match item_start(first) {
            ItemStart::End => return Ok((module_node(list, first.place), after)),
            ItemStart::Class => {
                let (made, behind) = match class(alloc, after) {
                    Ok(x) => x,
                    Err(f) => return Err(f),
                };
                push_item(&mut list, RawItem::Class(made))?;
                rest = behind;
            }
            ItemStart::Func(start) => {
                let (made, behind) = match begun(alloc, start, after) {
                    Ok(x) => x,
                    Err(f) => return Err(f),
                };
                push_item(&mut list, RawItem::Func(made))?;
                rest = behind;
            }
            ItemStart::Other => return Err(Refused::Syntax(first.place)),
        }
    }
    Err(Refused::Unfinished)
}

/// A whole module.
pub fn module(alloc: Global, ts: &[Token]) -> Result<(Raw, &[Token]), Refused>
    ensures leads { LeadsFrom (doc ∷ imports ∷ items ∷ []) (vitems [] ∷ []) ts.now (λ x. vmodule x.0) (λ x. x.1.now) result }
{
    let rest = match doc(ts) {
        Ok(x) => x,
        Err(f) => return Err(f),
    };
    let rest = match imports(rest) {
        Ok(x) => x,
        Err(f) => return Err(f),
    };
    items(alloc, rest)
}
