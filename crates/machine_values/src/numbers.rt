// Operators on numbers of 128 bits. What leaves them is too large.
ghost use Rattle.std.specs.Prelude.{◌≡◌, ◌≢◌, pos, IfErr, negsuc, ◌+ℤ◌, ◌-ℤ◌, ◌*ℤ◌, int_div, int_rem, if◌then◌else◌};
ghost use Rattle.py_syntax.specs.declared.Value.TheVariants.{Num};
ghost use Rattle.machine_model.specs.Results.{sized, then_do};
ghost use Rattle.machine_model.specs.Frames.{operand};
ghost use Rattle.machine_model.specs.Operators as operators;
ghost use Rattle.machine_values.specs.declared.stop.Stop.TheVariants.{OutOfMemory};
ghost use Rattle.machine_values.specs.Agreement.{Agrees};
ghost use Rattle.machine_values.specs.Bits.{has_128_bits};

use crate::stop::Stop;
use machine_model::Halt;
use py_base::Place;
use py_syntax::Value;

fn sum(p: Place, x: i128, y: i128) -> Result<Value, Stop>
    ensures agrees { Agrees (sized has_128_bits p (Num (x +ℤ y))) result (λ v. v) }
    ensures halts { IfErr result (λ e. e ≢ OutOfMemory) }
{
    match x.checked_add(y) {
        Some(z) => Ok(Value::Num(z)),
        None => Err(Stop::Halt(Halt::Wide(p))),
    }
}

/// `x - y`
pub fn difference(p: Place, x: i128, y: i128) -> Result<Value, Stop>
    ensures agrees { Agrees (sized has_128_bits p (Num (x -ℤ y))) result (λ v. v) }
    ensures halts { IfErr result (λ e. e ≢ OutOfMemory) }
{
    match x.checked_sub(y) {
        Some(z) => Ok(Value::Num(z)),
        None => Err(Stop::Halt(Halt::Wide(p))),
    }
}

fn product(p: Place, x: i128, y: i128) -> Result<Value, Stop>
    ensures agrees { Agrees (sized has_128_bits p (Num (x *ℤ y))) result (λ v. v) }
    ensures halts { IfErr result (λ e. e ≢ OutOfMemory) }
{
    match x.checked_mul(y) {
        Some(z) => Ok(Value::Num(z)),
        None => Err(Stop::Halt(Halt::Wide(p))),
    }
}

// Whether the division that rounds towards zero rounds a quotient below zero up.
fn is_rounded_up(x: i128, y: i128) -> bool
    requires not_zero { y ≢ pos 0 }
    requires not_minus_one { y ≢ negsuc 0 }
    ensures { result ≡ operators.is_rounded_up x y }
{
    x % y != 0 && (x < 0) != (y < 0)
}

// `x / y`, rounded towards zero.
fn divided(x: i128, y: i128) -> i128
    requires not_zero { y ≢ pos 0 }
    requires not_minus_one { y ≢ negsuc 0 }
    ensures { result ≡ int_div x y }
{
    x / y
}

// What `divided` leaves.
fn left_over(x: i128, y: i128) -> i128
    requires not_zero { y ≢ pos 0 }
    requires not_minus_one { y ≢ negsuc 0 }
    ensures { result ≡ int_rem x y }
{
    x % y
}

#[tactic(auto, using(crate::proofs::Floors::floor_div_up, crate::proofs::Floors::floor_div_there, crate::proofs::Floors::sized_there))]
fn quotient(p: Place, x: i128, y: i128) -> Result<Value, Stop>
    requires { y ≢ pos 0 }
    ensures agrees { Agrees (sized has_128_bits p (Num (operators.floor_div x y))) result (λ v. v) }
    ensures halts { IfErr result (λ e. e ≢ OutOfMemory) }
{
    if y == -1 {
        return difference(p, 0, x);
    }
    let towards_zero = divided(x, y);
    if is_rounded_up(x, y) {
        difference(p, towards_zero, 1)
    } else {
        Ok(Value::Num(towards_zero))
    }
}

#[tactic(auto, using(crate::proofs::Floors::floor_mod_up, crate::proofs::Floors::floor_mod_there, crate::proofs::Floors::sized_there))]
fn modulus(p: Place, x: i128, y: i128) -> Result<Value, Stop>
    requires { y ≢ pos 0 }
    ensures agrees { Agrees (sized has_128_bits p (Num (operators.floor_mod x y))) result (λ v. v) }
    ensures halts { IfErr result (λ e. e ≢ OutOfMemory) }
{
    if y == -1 {
        return Ok(Value::Num(0));
    }
    let remainder = left_over(x, y);
    if is_rounded_up(x, y) {
        sum(p, remainder, y)
    } else {
        Ok(Value::Num(remainder))
    }
}

/// An operator on two numbers.
pub fn on_numbers(p: Place, key: u16, x: i128, y: i128) -> Result<Value, Stop>
    ensures agrees { Agrees (then_do (operand (operators.on_numbers key x y)) (sized has_128_bits p)) result (λ v. v) }
    ensures halts { IfErr result (λ e. e ≢ OutOfMemory) }
{
    match key {
        1 => sum(p, x, y),
        2 => difference(p, x, y),
        3 => product(p, x, y),
        4 if y != 0 => quotient(p, x, y),
        5 if y != 0 => modulus(p, x, y),
        7 => Ok(Value::Truth(x < y)),
        8 => Ok(Value::Truth(x <= y)),
        9 => Ok(Value::Truth(x > y)),
        10 => Ok(Value::Truth(x >= y)),
        11 => Ok(Value::Truth(x == y)),
        12 => Ok(Value::Truth(x != y)),
        _ => Err(Stop::Halt(Halt::NoOperand)),
    }
}
