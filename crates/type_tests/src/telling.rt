// What `type_module` answers to a text, as a text.
use class_table::build;
use py_base::Place;
use py_lexer::lex;
use py_parser::parse::parse;
use py_syntax::Ty;
use py_tokens::TokenForm;
use py_types::{TypeFault, Typed, type_module};
use raw_syntax::Raw;
use std::alloc::Global;
use type_names::Local;

/// What is written so far, and whether memory ran out.
#[derive(Drop)]
struct Writer {
    alloc: Global,
    bytes: Vec<u8>,
    failed: bool,
}

impl Writer {
    fn put(&mut self, piece: &[u8]) {
        if self.bytes.extend_from_slice(piece).is_err() {
            self.failed = true;
        }
    }

    fn put_number(&mut self, number: u32) {
        match format!(in self.alloc; "{number}") {
            Ok(text) => self.put(text.as_bytes()),
            Err(_) => self.failed = true,
        }
    }

    fn put_place(&mut self, place: Place) {
        self.put_number(place.line);
        self.put(b":");
        self.put_number(place.col);
    }

    fn put_type(&mut self, ty: Ty) {
        match ty {
            Ty::Int => self.put(b"int"),
            Ty::Bool => self.put(b"bool"),
            Ty::Void => self.put(b"void"),
            Ty::Thr => self.put(b"thread"),
            Ty::Obj(class) => {
                self.put(b"obj");
                self.put_number(class);
            }
            Ty::Opt(class) => {
                self.put(b"opt");
                self.put_number(class);
            }
        }
    }

    fn put_locals(&mut self, locals: &[Local]) {
        self.put(b" |");
        for local in locals {
            self.put(b" ");
            self.put(local.name.bytes());
            self.put(b" ");
            self.put_type(local.ty);
        }
    }

    fn put_typed(&mut self, typed: &Typed) {
        self.put(b"types");
        for entry in typed.types.as_slice() {
            self.put(b" ");
            self.put_place(entry.place);
            self.put(b" ");
            self.put_type(entry.ty);
        }
        for locals in typed.locals.as_slice() {
            self.put_locals(locals.as_slice());
        }
    }

    fn put_answer(&mut self, answer: &Result<Typed, TypeFault>) {
        match answer {
            Ok(typed) => self.put_typed(typed),
            Err(TypeFault::Mistyped(place, rule)) => {
                self.put(b"Mistyped ");
                self.put_number(u32::from(*rule));
                self.put(b" ");
                self.put_place(*place);
            }
            Err(TypeFault::BoolAsInt(place)) => {
                self.put(b"BoolAsInt ");
                self.put_place(*place);
            }
            Err(TypeFault::Unassigned(place)) => {
                self.put(b"Unassigned ");
                self.put_place(*place);
            }
            Err(TypeFault::OutOfMemory) => self.put(b"OutOfMemory"),
        }
    }
}

// The tree of a text of at most a million bytes; None where it has none.
fn tree_of(alloc: Global, text: &str) -> Option<Raw> {
    if text.len() > 1_000_000 {
        return None;
    }
    let tokens = lex(alloc, text.as_bytes()).ok()?;
    let (last, _) = tokens.split_last()?;
    match &last.form {
        TokenForm::End => parse(alloc, &tokens).ok(),
        _ => None,
    }
}

// The answer as a text.
fn told(alloc: Global, text: &str) -> Option<Vec<u8>> {
    let raw = tree_of(alloc, text)?;
    let classes = build(alloc, &raw).ok()?;
    let mut writer = Writer {
        alloc,
        bytes: Vec::new(alloc),
        failed: false,
    };
    writer.put_answer(&type_module(alloc, &raw, &classes));
    if writer.failed {
        return None;
    }
    Some(writer.bytes)
}

/// Whether the answer to the text is told so.
pub fn tells(alloc: Global, text: &str, answer: &str) -> bool {
    match told(alloc, text) {
        Some(bytes) => bytes.as_slice() == answer.as_bytes(),
        None => false,
    }
}
