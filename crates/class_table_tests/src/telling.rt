// What `build` answers to a text, as a text.
use class_table::{ClassFault, Classes, build};
use py_base::{Place, Text};
use py_lexer::lex;
use py_parser::parse::parse;
use py_syntax::{Class, ClassSort, Field, Ty};
use py_tokens::TokenForm;
use raw_syntax::Raw;
use std::alloc::Global;

/// What is written so far, and whether memory ran out.
#[derive(Drop)]
struct Writer {
    alloc: Global,
    bytes: Vec<u8>,
    failed: bool,
}

impl Writer {
    fn put(&mut self, piece: &[u8]) {
        if self.bytes.extend_from_slice(piece).is_err() {
            self.failed = true;
        }
    }

    fn put_number(&mut self, number: u32) {
        match format!(in self.alloc; "{number}") {
            Ok(text) => self.put(text.as_bytes()),
            Err(_) => self.failed = true,
        }
    }

    fn put_fault(&mut self, name: &[u8], place: Place) {
        self.put(name);
        self.put(b" ");
        self.put_number(place.line);
        self.put(b":");
        self.put_number(place.col);
    }

    fn put_name(&mut self, names: &[Text], number: u32) {
        match names.get(number as usize) {
            Some(name) => self.put(name.bytes()),
            None => self.put(b"?"),
        }
    }

    fn put_type(&mut self, ty: Ty) {
        match ty {
            Ty::Int => self.put(b"int"),
            Ty::Bool => self.put(b"bool"),
            Ty::Void => self.put(b"void"),
            Ty::Thr => self.put(b"thread"),
            Ty::Obj(class) => {
                self.put(b"obj");
                self.put_number(class);
            }
            Ty::Opt(class) => {
                self.put(b"opt");
                self.put_number(class);
            }
        }
    }

    fn put_sort(&mut self, sort: ClassSort) {
        match sort {
            ClassSort::Plain => {}
            ClassSort::Exc => self.put(b" exc"),
            ClassSort::LockOver(class, predicate) => {
                self.put(b" lock");
                self.put_number(class);
                self.put(b",");
                self.put_number(predicate);
            }
        }
    }

    fn put_field(&mut self, names: &[Text], field: Field) {
        self.put(b" ");
        self.put_name(names, field.name);
        self.put(b":");
        self.put_type(field.ty);
    }

    fn put_class(&mut self, names: &[Text], class: &Class) {
        self.put_name(names, class.name);
        if let Some(base) = class.base {
            self.put(b"<");
            self.put_number(base);
        }
        self.put_sort(class.sort);
        for field in class.fields.as_slice() {
            self.put_field(names, *field);
        }
        for method in class.methods.as_slice() {
            self.put(b" #");
            self.put_number(*method);
        }
    }

    fn put_classes(&mut self, classes: &Classes) {
        let names = classes.names.as_slice();
        for name in names {
            self.put(name.bytes());
            self.put(b" ");
        }
        for class in classes.list.as_slice() {
            self.put(b"| ");
            self.put_class(names, class);
            self.put(b" ");
        }
        self.put(b"| main ");
        self.put_number(classes.main);
    }

    fn put_answer(&mut self, answer: &Result<Classes, ClassFault>) {
        match answer {
            Ok(classes) => self.put_classes(classes),
            Err(ClassFault::DuplicateName(place)) => self.put_fault(b"DuplicateName", *place),
            Err(ClassFault::UnknownBase(place)) => self.put_fault(b"UnknownBase", *place),
            Err(ClassFault::BaseCycle(place)) => self.put_fault(b"BaseCycle", *place),
            Err(ClassFault::BadInit(place)) => self.put_fault(b"BadInit", *place),
            Err(ClassFault::NoMain(place)) => self.put_fault(b"NoMain", *place),
            Err(ClassFault::OutOfMemory) => self.put(b"OutOfMemory"),
        }
    }
}

/// The tree of a text of at most a million bytes; None where it has none.
pub fn tree_of(alloc: Global, text: &str) -> Option<Raw> {
    if text.len() > 1_000_000 {
        return None;
    }
    let tokens = lex(alloc, text.as_bytes()).ok()?;
    let (last, _) = tokens.split_last()?;
    match &last.form {
        TokenForm::End => parse(alloc, &tokens).ok(),
        _ => None,
    }
}

// The answer as a text.
fn told(alloc: Global, text: &str) -> Option<Vec<u8>> {
    let raw = tree_of(alloc, text)?;
    let mut writer = Writer {
        alloc,
        bytes: Vec::new(alloc),
        failed: false,
    };
    writer.put_answer(&build(alloc, &raw));
    if writer.failed {
        return None;
    }
    Some(writer.bytes)
}

/// Whether the answer to the text is told so.
pub fn tells(alloc: Global, text: &str, answer: &str) -> bool {
    match told(alloc, text) {
        Some(bytes) => bytes.as_slice() == answer.as_bytes(),
        None => false,
    }
}
