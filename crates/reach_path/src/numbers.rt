//! Numbers for the functions of all modules: those of a module go behind those of the modules before it.
ghost use Rattle.std.specs.Prelude.{◌≡◌, ◌+◌, ◌<◌, ◌≤◌, ◌^◌, length, slice_index, sum, cond, Some, None, IfOk, OnOk};
ghost use Rattle.reach_path.specs.Numbers.{AreStarts, function_at, is_numbered, module_at, number_of, starts_from};

use jam_base::{FunctionRef, OutOfMemory};
use std::alloc::Global;

// Up to how many modules 32 bits number, with one number more for the end.
const MOST: usize = 4294967294;

/// The number of each module's first function, and last the number of all functions.
pub(crate) fn starts_of(alloc: Global, functions: &[u32]) -> Result<Vec<u32>, OutOfMemory>
    requires { sum functions.now < 2 ^ 32 }
    ensures starts { IfOk result (λ starts. starts.items ≡ starts_from 0 functions.now) }
    ensures few { OnOk result (length functions.now ≤ 4294967294) }
{
    if functions.len() > MOST {
        return Err(OutOfMemory);
    }
    let mut starts = Vec::with_capacity(alloc, functions.len() + 1)?;
    let mut next = 0u32;
    for count in functions {
        starts.push(next)?;
        next += *count;
    }
    starts.push(next)?;
    Ok(starts)
}

/// The number of a function of a module that is there.
pub(crate) fn number(starts: &[u32], function: FunctionRef) -> u32
    requires in_modules { function.module < length starts.now }
    requires fits { number_of starts.now function < 2 ^ 32 }
    ensures { result ≡ number_of starts.now function }
{
    starts[function.module as usize] + function.function
}

/// The number of a function, if there is such a function.
pub(crate) fn number_if_there(starts: &[u32], function: FunctionRef) -> Option<u32>
    ensures { result
        ≡ cond (is_numbered starts.now function) (Some (number_of starts.now function)) None }
{
    let module = function.module as usize;
    if module + 1 >= starts.len() {
        return None;
    }
    let number = starts[module] as u64 + function.function as u64;
    if number >= starts[module + 1] as u64 {
        return None;
    }
    Some(number as u32)
}

/// The function of a number.
pub(crate) fn function_of(starts: &[u32], number: u32) -> FunctionRef
    requires starts { AreStarts starts.now }
    ensures { result ≡ function_at starts.now number }
{
    let module = module_of(starts, number);
    FunctionRef {
        module,
        function: number - starts[module as usize],
    }
}

// The last module whose functions begin at the number or before.
fn module_of(starts: &[u32], number: u32) -> u32
    requires { AreStarts starts.now }
    ensures module { result ≡ module_at starts.now number }
    ensures in_modules { result < length starts.now }
    ensures begins { slice_index starts.now result ≤ number }
{
    let behind = starts.partition_point(|start| *start <= number);
    (behind - 1) as u32
}
