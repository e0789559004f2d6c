// Equal copies of expressions.
ghost use Rattle.std.specs.Prelude.{◌≡◌, IfOk};

use crate::expr::{Expr, ExprForm, Instance};
use py_base::OutOfMemory;
use sqlite_items::{Boxed, Items};
use std::alloc::Global;

impl Expr {
    /// An equal expression.
    #[cycle(copy_expr)]
    pub fn copy(&self, alloc: Global) -> Result<Expr, OutOfMemory>
        ensures { IfOk result (λ copy. copy ≡ self.now) }
    {
        Ok(Expr {
            place: self.place,
            ty: self.ty,
            form: self.form.copy(alloc)?,
        })
    }
}

impl Instance {
    /// An equal instance.
    #[cycle(copy_expr)]
    pub fn copy(&self, alloc: Global) -> Result<Instance, OutOfMemory>
        ensures { IfOk result (λ copy. copy ≡ self.now) }
    {
        Ok(Instance {
            place: self.place,
            pred: self.pred,
            args: copy_exprs(alloc, &self.args)?,
        })
    }
}

impl ExprForm {
    // An equal form. Each arm gives its own `Ok`: one `Ok` around the match is much dearer to prove.
    #[cycle(copy_expr)]
    fn copy(&self, alloc: Global) -> Result<ExprForm, OutOfMemory>
        ensures { IfOk result (λ copy. copy ≡ self.now) }
    {
        match self {
            Self::Num(n) => Ok(Self::Num(*n)),
            Self::Truth(b) => Ok(Self::Truth(*b)),
            Self::Nil => Ok(Self::Nil),
            Self::Local(n) => Ok(Self::Local(*n)),
            Self::Get(e, field) => Ok(Self::Get(copy_boxed(alloc, e)?, *field)),
            Self::Un(op, a) => Ok(Self::Un(*op, copy_boxed(alloc, a)?)),
            Self::Bin(op, a, b) => Ok(Self::Bin(*op, copy_boxed(alloc, a)?, copy_boxed(alloc, b)?)),
            Self::Chain(all, ops) => {
                let ops = Items::from_slice(alloc, ops.as_slice())?;
                Ok(Self::Chain(copy_exprs(alloc, all)?, ops))
            }
            Self::And(a, b) => Ok(Self::And(copy_boxed(alloc, a)?, copy_boxed(alloc, b)?)),
            Self::Or(a, b) => Ok(Self::Or(copy_boxed(alloc, a)?, copy_boxed(alloc, b)?)),
            Self::Call(function, args) => Ok(Self::Call(*function, copy_exprs(alloc, args)?)),
            Self::Send(e, method, args) => {
                let e = copy_boxed(alloc, e)?;
                Ok(Self::Send(e, *method, copy_exprs(alloc, args)?))
            }
            Self::New(class, args) => Ok(Self::New(*class, copy_exprs(alloc, args)?)),
            Self::NewLock(class, e, level) => {
                let e = copy_boxed(alloc, e)?;
                Ok(Self::NewLock(*class, e, copy_boxed(alloc, level)?))
            }
            Self::NewThread(function, args, level) => {
                let args = copy_exprs(alloc, args)?;
                Ok(Self::NewThread(*function, args, copy_boxed(alloc, level)?))
            }
            Self::Locked(e) => copy_boxed(alloc, e).map(Self::Locked),
            Self::NotNil(e) => copy_boxed(alloc, e).map(Self::NotNil),
            Self::Old(e) => copy_boxed(alloc, e).map(Self::Old),
            Self::Answer => Ok(Self::Answer),
            Self::LevelOf(e) => copy_boxed(alloc, e).map(Self::LevelOf),
            Self::Opened(instance, e) => {
                let instance = Boxed::new(alloc, instance.get().copy(alloc)?)?;
                Ok(Self::Opened(instance, copy_boxed(alloc, e)?))
            }
            Self::Gives(a, b) => Ok(Self::Gives(copy_boxed(alloc, a)?, copy_boxed(alloc, b)?)),
        }
    }
}

#[cycle(copy_expr)]
fn copy_boxed(alloc: Global, e: &Boxed<Expr>) -> Result<Boxed<Expr>, OutOfMemory>
    ensures { IfOk result (λ copy. copy ≡ e.now) }
{
    Ok(Boxed::new(alloc, e.get().copy(alloc)?)?)
}

#[cycle(copy_expr)]
pub(crate) fn copy_exprs(alloc: Global, all: &Items<Expr>) -> Result<Items<Expr>, OutOfMemory>
    ensures { IfOk result (λ copy. copy ≡ all.now) }
{
    let mut copy = Items::new(alloc);
    for e in all.as_slice() {
        copy.push(e.copy(alloc)?)?;
    }
    Ok(copy)
}

pub(crate) fn copy_optional(alloc: Global, e: &Option<Expr>) -> Result<Option<Expr>, OutOfMemory>
    ensures { IfOk result (λ copy. copy ≡ e.now) }
{
    match e {
        None => Ok(None),
        Some(e) => e.copy(alloc).map(Some),
    }
}
