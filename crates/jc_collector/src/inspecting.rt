//! `inspect`: what an upload says.

ghost use Rattle.std.specs.Prelude.{◌≡◌, ◌≢◌, ◌⊎◌, ℕ, List, Some, IfOk, IfErr};
ghost use Rattle.std.specs.Io.KnownBytes.{Keeps};
ghost use Rattle.jc_collect.specs.Delivered.{of_delivery};
ghost use Rattle.jc_collector.specs.Inspected.{PrintsSomeInspected, PrintsInspectedOf, inspected_found};

use jc_base::{ByteStream, Limits};
use jc_collect::{Bounds, Delivery, Inspected, inspect_one};
use jc_collector_answers::open_upload;
use jc_command_shared::{Failure, Found, Output, Status, System, Upload, print_found};
use jc_file::ByteSpace;
use std::alloc::Global;

/// The code of an upload that passes a bound. It is no fault of a format.
const OVER_BOUNDS: u16 = 6;

/// Prints what the upload in a file says, under the default limits and within these bounds.
pub fn inspect<'a, R: System, O: Output>(
    rt: &R,
    file: &'a str,
    bounds: &Bounds,
    output: &mut O,
) -> Result<Status, Failure<'a>>
    ensures printed { IfOk result (λ status. PrintsSomeInspected status (O.contents output.old) (O.contents output.new)) }
    // If it is told what the file has, the line is what that says.
    ensures says { (upload : List ℕ) → R.told file.now ≡ Some upload
        → IfOk result (λ status. PrintsInspectedOf bounds.now upload status (O.contents output.old) (O.contents output.new)) }
    ensures failed { IfErr result (λ failure. (failure ≡ Failure.CannotOpen file.entry) ⊎ (failure ≡ Failure.ReadFailed)
        ⊎ (failure ≡ Failure.WriteFailed) ⊎ (failure ≡ Failure.OutOfMemory)) }
    ensures untouched { IfErr result (λ failure. failure ≢ Failure.WriteFailed
        → Keeps (O.contents output.old) (O.contents output.new)) }
{
    let upload = open_upload(rt, file)?;
    inspect_delivery(rt.alloc(), upload, bounds, output)
}

/// Prints what a delivery says.
fn inspect_delivery<'a, S: ByteStream + Drop, B: ByteSpace + Drop, O: Output>(
    alloc: Global,
    delivery: Delivery<S, B>,
    bounds: &Bounds,
    output: &mut O,
) -> Result<Status, Failure<'a>>
    ensures printed { IfOk result (λ status. PrintsSomeInspected status (O.contents output.old) (O.contents output.new)) }
    // If its bytes are known, the line is what they say.
    ensures says { (upload : List ℕ) → of_delivery S.remaining B.bytes delivery ≡ Some upload
        → IfOk result (λ status. PrintsInspectedOf bounds.now upload status (O.contents output.old) (O.contents output.new)) }
    ensures failed { IfErr result (λ failure. (failure ≡ Failure.ReadFailed) ⊎ (failure ≡ Failure.WriteFailed)
        ⊎ (failure ≡ Failure.OutOfMemory)) }
    ensures untouched { IfErr result (λ failure. failure ≢ Failure.WriteFailed
        → Keeps (O.contents output.old) (O.contents output.new)) }
{
    let inspected = inspect_one(alloc, delivery, &Limits::default(), bounds)?;
    print_found(&found_of(&inspected), output)
}

/// What is found of an upload that says this.
fn found_of(inspected: &Inspected) -> Found
    ensures { result ≡ inspected_found inspected.now }
{
    match *inspected {
        Inspected::Upload {
            source,
            start,
            count,
            left,
            last,
            windows,
        } => Found::Upload(Upload {
            source,
            start,
            entries: count,
            left,
            last,
            windows,
        }),
        Inspected::Bad(fault) => Found::bad(fault),
        Inspected::Over(place) => Found::Bad {
            code: OVER_BOUNDS,
            place,
        },
    }
}
