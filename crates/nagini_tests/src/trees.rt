// Trees of modules as texts, with their places.
use py_base::{Place, Text};
use raw_syntax::{
    Arithmetic, Comparison, Raw, RawArgument, RawClass, RawComparison, RawElif, RawExpr,
    RawExprForm, RawFunc, RawHandler, RawItem, RawParam, RawStmt, RawStmtForm, RawTy,
};
use sqlite_items::Items;
use std::alloc::Global;

/// What is written so far, and whether memory ran out.
#[derive(Drop)]
pub struct Writer {
    alloc: Global,
    bytes: Vec<u8>,
    failed: bool,
}

impl Writer {
    /// Nothing yet.
    pub fn new(alloc: Global) -> Writer {
        Writer {
            alloc,
            bytes: Vec::new(alloc),
            failed: false,
        }
    }

    /// What was written, if there was memory for it.
    pub fn into_bytes(self) -> Option<Vec<u8>> {
        if self.failed { None } else { Some(self.bytes) }
    }

    /// Writes a piece.
    pub fn put(&mut self, piece: &[u8]) {
        if self.bytes.extend_from_slice(piece).is_err() {
            self.failed = true;
        }
    }

    /// Writes a place, as `@2:5`.
    pub fn put_place(&mut self, place: Place) {
        match format!(in self.alloc; "@{}:{}", place.line, place.col) {
            Ok(text) => self.put(text.as_bytes()),
            Err(_) => self.failed = true,
        }
    }

    // A word and its place.
    fn put_at(&mut self, word: &[u8], place: Place) {
        self.put(word);
        self.put_place(place);
    }

    fn put_number(&mut self, number: i128) {
        match format!(in self.alloc; "{number}") {
            Ok(text) => self.put(text.as_bytes()),
            Err(_) => self.failed = true,
        }
    }
}

fn sign_of(sign: Arithmetic) -> &'static [u8] {
    match sign {
        Arithmetic::Plus => b"+",
        Arithmetic::Minus => b"-",
        Arithmetic::Times => b"*",
        Arithmetic::Divide => b"/",
        Arithmetic::FloorDivide => b"//",
        Arithmetic::Modulo => b"%",
    }
}

fn word_of(operator: Comparison) -> &'static [u8] {
    match operator {
        Comparison::Less => b"<",
        Comparison::LessEqual => b"<=",
        Comparison::Greater => b">",
        Comparison::GreaterEqual => b">=",
        Comparison::Equal => b"==",
        Comparison::NotEqual => b"!=",
        Comparison::Is => b"is",
        Comparison::IsNot => b"is not",
    }
}

/// Writes an expression with all its groups: `(a -@1:3 b)`, `[a <@1:3 b]` for a chain of comparisons,
/// `<a,>` for a tuple, `{a}` for brackets. Each node has its place behind it, or behind its operator.
#[cycle(expressions)]
pub fn write_expr(e: &RawExpr, out: &mut Writer) {
    match &e.form {
        RawExprForm::Number(number) => {
            out.put_number(*number);
            out.put_place(e.place);
        }
        RawExprForm::Truth(true) => out.put_at(b"True", e.place),
        RawExprForm::Truth(false) => out.put_at(b"False", e.place),
        RawExprForm::Nil => out.put_at(b"None", e.place),
        RawExprForm::Name(name) => out.put_at(name.bytes(), e.place),
        RawExprForm::Str(text) => {
            out.put(b"'");
            out.put(text.bytes());
            out.put_at(b"'", e.place);
        }
        RawExprForm::Bracket(a) => {
            out.put(b"{");
            write_expr(a.get(), out);
            out.put_at(b"}", e.place);
        }
        RawExprForm::Tuple(list) => {
            out.put(b"<");
            write_elements(list, out);
            out.put_at(b">", e.place);
        }
        RawExprForm::Field(a, name) => {
            write_expr(a.get(), out);
            out.put(b".");
            out.put_at(name.bytes(), e.place);
        }
        RawExprForm::Call(a, list) => {
            write_expr(a.get(), out);
            out.put(b"(");
            write_arguments(list, out);
            out.put_at(b")", e.place);
        }
        RawExprForm::Negate(a) => {
            out.put_at(b"(-", e.place);
            out.put(b" ");
            write_expr(a.get(), out);
            out.put(b")");
        }
        RawExprForm::Not(a) => {
            out.put_at(b"(not", e.place);
            out.put(b" ");
            write_expr(a.get(), out);
            out.put(b")");
        }
        RawExprForm::Binary(sign, a, b) => {
            out.put(b"(");
            write_expr(a.get(), out);
            out.put(b" ");
            out.put_at(sign_of(*sign), e.place);
            out.put(b" ");
            write_expr(b.get(), out);
            out.put(b")");
        }
        RawExprForm::And(a, b) => {
            out.put(b"(");
            write_expr(a.get(), out);
            out.put_at(b" and", e.place);
            out.put(b" ");
            write_expr(b.get(), out);
            out.put(b")");
        }
        RawExprForm::Or(a, b) => {
            out.put(b"(");
            write_expr(a.get(), out);
            out.put_at(b" or", e.place);
            out.put(b" ");
            write_expr(b.get(), out);
            out.put(b")");
        }
        RawExprForm::Chain(a, links) => {
            out.put(b"[");
            write_expr(a.get(), out);
            write_links(links, out);
            out.put_at(b"]", e.place);
        }
    }
}

#[cycle(expressions)]
fn write_elements(list: &Items<RawExpr>, out: &mut Writer) {
    'elements: for e in list.as_slice() {
        write_expr(e, out);
        out.put(b",");
    }
}

#[cycle(expressions)]
fn write_arguments(list: &Items<RawArgument>, out: &mut Writer) {
    'arguments: for x in list.as_slice() {
        write_argument(x, out);
        out.put(b",");
    }
}

#[cycle(expressions)]
fn write_argument(x: &RawArgument, out: &mut Writer) {
    match x {
        RawArgument::Value(e) => write_expr(e, out),
        RawArgument::Named(e, f) => {
            write_expr(e, out);
            out.put(b"=");
            write_expr(f, out);
        }
    }
}

#[cycle(expressions)]
fn write_links(links: &Items<RawComparison>, out: &mut Writer) {
    'links: for link in links.as_slice() {
        out.put(b" ");
        out.put_at(word_of(link.operator), link.place);
        out.put(b" ");
        write_expr(&link.operand, out);
    }
}

/// Writes a type, as `Lock[Cell]@1:9`.
pub fn write_ty(ty: &RawTy, out: &mut Writer) {
    out.put(ty.head.bytes());
    if let Some(inner) = &ty.inner {
        out.put(b"[");
        out.put(inner.bytes());
        out.put(b"]");
    }
    out.put_place(ty.place);
}

/// Writes a statement, with a word for its form, its place, its parts and a semicolon.
#[cycle(statements)]
pub fn write_stmt(s: &RawStmt, out: &mut Writer) {
    match &s.form {
        RawStmtForm::Pass => out.put_at(b"pass", s.place),
        RawStmtForm::Break => out.put_at(b"break", s.place),
        RawStmtForm::Continue => out.put_at(b"continue", s.place),
        RawStmtForm::Return(value) => {
            out.put_at(b"return", s.place);
            if let Some(e) = value {
                out.put(b" ");
                write_expr(e, out);
            }
        }
        RawStmtForm::Raise(place, class) => {
            out.put_at(b"raise", s.place);
            out.put(b" ");
            out.put_at(class.bytes(), *place);
        }
        RawStmtForm::Assert(e) => {
            out.put_at(b"assert", s.place);
            out.put(b" ");
            write_expr(e, out);
        }
        RawStmtForm::Eval(e) => {
            out.put_at(b"eval", s.place);
            out.put(b" ");
            write_expr(e, out);
        }
        RawStmtForm::Declare(e, ty, f) => {
            out.put_at(b"declare", s.place);
            out.put(b" ");
            write_expr(e, out);
            out.put(b" : ");
            write_ty(ty, out);
            out.put(b" = ");
            write_expr(f, out);
        }
        RawStmtForm::Assign(e, f) => {
            out.put_at(b"assign", s.place);
            out.put(b" ");
            write_expr(e, out);
            out.put(b" = ");
            write_expr(f, out);
        }
        RawStmtForm::Augment(e, place, sign, f) => {
            out.put_at(b"augment", s.place);
            out.put(b" ");
            write_expr(e, out);
            out.put(b" ");
            out.put_at(sign_of(*sign), *place);
            out.put(b" ");
            write_expr(f, out);
        }
        RawStmtForm::If(e, body, parts, other) => {
            out.put_at(b"if", s.place);
            out.put(b" ");
            write_expr(e, out);
            write_block(body, out);
            write_parts(parts, out);
            out.put(b" else");
            write_block(other, out);
        }
        RawStmtForm::While(e, body) => {
            out.put_at(b"while", s.place);
            out.put(b" ");
            write_expr(e, out);
            write_block(body, out);
        }
        RawStmtForm::Try(body, handlers, other, last) => {
            out.put_at(b"try", s.place);
            write_block(body, out);
            write_handlers(handlers, out);
            out.put(b" else");
            write_block(other, out);
            out.put(b" finally");
            write_block(last, out);
        }
        RawStmtForm::With(e, body) => {
            out.put_at(b"with", s.place);
            out.put(b" ");
            write_expr(e, out);
            write_block(body, out);
        }
    }
    out.put(b";");
}

#[cycle(statements)]
fn write_block(body: &Items<RawStmt>, out: &mut Writer) {
    out.put(b"{");
    'statements: for s in body.as_slice() {
        write_stmt(s, out);
    }
    out.put(b"}");
}

#[cycle(statements)]
fn write_parts(parts: &Items<RawElif>, out: &mut Writer) {
    'parts: for part in parts.as_slice() {
        out.put_at(b" elif", part.place);
        out.put(b" ");
        write_expr(&part.condition, out);
        write_block(&part.body, out);
    }
}

#[cycle(statements)]
fn write_handlers(handlers: &Items<RawHandler>, out: &mut Writer) {
    'handlers: for handler in handlers.as_slice() {
        out.put(b" except ");
        out.put_at(handler.class.bytes(), handler.place);
        write_block(&handler.body, out);
    }
}

fn write_marks(marks: &Items<Text>, out: &mut Writer) {
    for mark in marks.as_slice() {
        out.put(b"@");
        out.put(mark.bytes());
        out.put(b" ");
    }
}

fn write_params(params: &Items<RawParam>, out: &mut Writer) {
    for param in params.as_slice() {
        out.put_at(param.name.bytes(), param.place);
        if let Some(ty) = &param.ty {
            out.put(b" : ");
            write_ty(ty, out);
        }
        out.put(b",");
    }
}

/// Writes a function: its decorators, its name, its parameters, its result and its block.
pub fn write_func(f: &RawFunc, out: &mut Writer) {
    write_marks(&f.marks, out);
    out.put_at(f.name.bytes(), f.place);
    out.put(b"(");
    write_params(&f.params, out);
    out.put(b") ");
    write_ty(&f.ret, out);
    write_block(&f.body, out);
}

fn write_class(class: &RawClass, out: &mut Writer) {
    out.put(b"class ");
    out.put_at(class.name.bytes(), class.place);
    if let Some(base) = &class.base {
        out.put(b" ");
        write_ty(base, out);
    }
    out.put(b"{");
    for member in class.members.as_slice() {
        write_func(member, out);
        out.put(b" ");
    }
    out.put(b"}");
}

/// Writes a module: its classes and functions, and the place of its end.
pub fn write_module(tree: &Raw, out: &mut Writer) {
    for item in tree.items.as_slice() {
        match item {
            RawItem::Class(class) => write_class(class, out),
            RawItem::Func(f) => write_func(f, out),
        }
        out.put(b" ");
    }
    out.put_at(b"end", tree.end);
}
