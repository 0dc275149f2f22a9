use cdc_base::Place;
use cdc_prog::Kind;
use std::alloc::AllocError;

/// Why units are no program, in the order in which the kinds are asked.
#[derive(Clone, Copy, Debug, PartialEq, Eq)]
pub enum CheckRefusal {
    /// A use of a name that is neither declared nor implicitly integer.
    Undeclared(Place),
    /// A name stands twice where it may stand once.
    Duplicate(Place, Place),
    /// An expression that has to be constant is not, or its evaluation faults.
    NotConstant(Place),
    /// A use or a declaration of a shape that it may not have.
    Shape(Place),
    /// The variable of a DO is changed inside it.
    DoVariable(Place),
    /// A statement in the body of a DOALL that is no assignment, IF or DO.
    DoallBody(Place),
    /// A scalar is assigned or is the variable of a DO in the body of a DOALL in which it is not
    /// private. The index of the DOALL counts so.
    NotPrivate(Place),
    /// A CALL of no subroutine.
    NoUnit(Place),
    /// The actual arguments of a CALL do not fit the dummy arguments.
    Arguments(Place),
    /// An actual argument that is no variable stands for a dummy that is written.
    ActualNotVariable(Place),
    /// A CALL whose unit reaches the calling unit.
    Recursive(Place),
    /// A CALL names one variable twice, and one of its dummies is written.
    Aliased(Place, Place),
    /// A quantity is over its limit.
    TooMany(Kind),
    Memory,
}

impl From<AllocError> for CheckRefusal {
    ghost use Rattle.std.specs.Prelude.{◌≡◌};
    ghost use Rattle.cdc_check.specs.declared.refusal.CheckRefusal.TheVariants.{Memory};

    ghost from_gives = { λ _ e. e ≡ Memory };

    fn from(_: AllocError) -> CheckRefusal {
        CheckRefusal::Memory
    }
}
