// The kinds of faults.
ghost use Rattle.std.specs.Prelude.{◌≡◌};
ghost use Rattle.py_base.specs.Kinds.{number_of, name_of};

/// The kinds of faults that a report names, in the order of their numbers.
#[derive(Clone, Copy, Debug, PartialEq, Eq, PartialOrd, Ord, Hash)]
pub enum Kind {
    /// A field is read in code without a unit of it.
    ReadPermission,
    /// A field is written in code without all its units.
    WritePermission,
    /// A receiver, a lock or a thread is None.
    NoneReceiver,
    /// A divisor in code is zero.
    ZeroDivisor,
    /// An `assert` or an `Assert` doesn't hold.
    Assert,
    /// A None stands where an object is wanted.
    NoneValue,
    /// An expression of a precondition is false.
    PreValue,
    /// Units that a precondition asks for are missing.
    PreUnits,
    /// An instance of a predicate is missing, or a `Fold` doesn't find its body.
    Instance,
    /// An expression of a postcondition is false.
    PostValue,
    /// Units that a postcondition asks for are missing.
    PostUnits,
    /// An expression of a loop invariant is false.
    LoopValue,
    /// Units that a loop invariant asks for are missing.
    LoopUnits,
    /// A lock's invariant doesn't hold where the lock is made or released.
    LockInvariant,
    /// An exception leaves that no `Exsures` covers.
    Undeclared,
    /// An exceptional postcondition doesn't hold.
    Exceptional,
    /// A lock is released, or its duty is taken, that isn't held.
    NotHeld,
    /// A measure is below zero or not lower, or a cap is passed.
    Measure,
    /// A loop, a callee or a joined target lacks `MustTerminate`.
    NoMeasure,
    /// What is waited for isn't above the base wait level and the held locks.
    WaitLevel,
    /// A duty is left at the end of a method or of a loop's turn.
    Leak,
    /// A thread is started without the right to it, or with another target.
    NotStartable,
    /// A thread is joined without the right to it, or with another target.
    NotJoinable,
    /// An overriding method doesn't meet the contract of the method that it overrides.
    Override,
    /// An expression of a contract isn't defined where it stands.
    Undefined,
}

impl Kind {
    /// The number that a report prints, from 1 to 25.
    pub fn number(self) -> u8
        ensures { result ≡ number_of self }
    {
        match self {
            Kind::ReadPermission => 1,
            Kind::WritePermission => 2,
            Kind::NoneReceiver => 3,
            Kind::ZeroDivisor => 4,
            Kind::Assert => 5,
            Kind::NoneValue => 6,
            Kind::PreValue => 7,
            Kind::PreUnits => 8,
            Kind::Instance => 9,
            Kind::PostValue => 10,
            Kind::PostUnits => 11,
            Kind::LoopValue => 12,
            Kind::LoopUnits => 13,
            Kind::LockInvariant => 14,
            Kind::Undeclared => 15,
            Kind::Exceptional => 16,
            Kind::NotHeld => 17,
            Kind::Measure => 18,
            Kind::NoMeasure => 19,
            Kind::WaitLevel => 20,
            Kind::Leak => 21,
            Kind::NotStartable => 22,
            Kind::NotJoinable => 23,
            Kind::Override => 24,
            Kind::Undefined => 25,
        }
    }

    /// The name that a report prints.
    pub fn name(self) -> &'static str
        ensures { result.now ≡ name_of self }
    {
        match self {
            Kind::ReadPermission => "ReadPermission",
            Kind::WritePermission => "WritePermission",
            Kind::NoneReceiver => "NoneReceiver",
            Kind::ZeroDivisor => "ZeroDivisor",
            Kind::Assert => "Assert",
            Kind::NoneValue => "NoneValue",
            Kind::PreValue => "PreValue",
            Kind::PreUnits => "PreUnits",
            Kind::Instance => "Instance",
            Kind::PostValue => "PostValue",
            Kind::PostUnits => "PostUnits",
            Kind::LoopValue => "LoopValue",
            Kind::LoopUnits => "LoopUnits",
            Kind::LockInvariant => "LockInvariant",
            Kind::Undeclared => "Undeclared",
            Kind::Exceptional => "Exceptional",
            Kind::NotHeld => "NotHeld",
            Kind::Measure => "Measure",
            Kind::NoMeasure => "NoMeasure",
            Kind::WaitLevel => "WaitLevel",
            Kind::Leak => "Leak",
            Kind::NotStartable => "NotStartable",
            Kind::NotJoinable => "NotJoinable",
            Kind::Override => "Override",
            Kind::Undefined => "Undefined",
        }
    }
}
