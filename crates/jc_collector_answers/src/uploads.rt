//! UPLOAD files as deliveries.

ghost use Rattle.std.specs.Prelude.{◌≡◌, ◌⊎◌, IfOk, IfErr, length, map};
ghost use Rattle.jc_collect.specs.Delivered.{of_delivery};
ghost use Rattle.jc_collector_answers.specs.Opened.{WhyUnopened};

use jc_base::{ByteStream, FromRead};
use jc_collect::Delivery;
use jc_command_shared::{Failure, System, is_regular, open_file};
use jc_file::{ByteSpace, FileSpace, PagedSpace};

/// An UPLOAD file: read by ranges if it is a regular one, and otherwise as a stream.
pub type Upload<F> = Delivery<FromRead<F>, PagedSpace<FileSpace<F>>>;

/// Opens the files at these paths, in order.
pub fn open_uploads<'a, R: System>(
    rt: &R,
    paths: &[&'a str],
) -> Result<Vec<Upload<R::File>>, Failure<'a>>
    ensures each { IfOk result (λ uploads. length uploads.items ≡ length paths.now) }
    // What is told of files is what they bring.
    ensures known { IfOk result (λ uploads. map (of_delivery ⟦<FromRead<R::File> as ByteStream>⟧.remaining
        ⟦<PagedSpace<FileSpace<R::File>> as ByteSpace>⟧.bytes) uploads.items ≡ map (λ path. R.told path.now) paths.now) }
    ensures failed { IfErr result (WhyUnopened (map (λ path. path.now) paths.now)) }
{
    let mut uploads = Vec::new(rt.alloc());
    for path in paths {
        uploads.push(open_upload(rt, path)?)?;
    }
    Ok(uploads)
}

/// Opens the file at a path.
pub fn open_upload<'a, R: System>(rt: &R, path: &'a str) -> Result<Upload<R::File>, Failure<'a>>
    // What is told of the file is what it brings.
    ensures known { IfOk result (λ upload. of_delivery ⟦<FromRead<R::File> as ByteStream>⟧.remaining
        ⟦<PagedSpace<FileSpace<R::File>> as ByteSpace>⟧.bytes upload ≡ R.told path.now) }
    ensures failed { IfErr result (λ failure. (failure ≡ Failure.CannotOpen path.entry) ⊎ (failure ≡ Failure.ReadFailed)
        ⊎ (failure ≡ Failure.OutOfMemory)) }
{
    let file = open_file(rt, path)?;
    if !is_regular(&file) {
        return Ok(Delivery::Stream(FromRead::new(file)));
    }
    match FileSpace::new(file) {
        Ok(space) => Ok(Delivery::Space(PagedSpace::new(rt.alloc(), space))),
        Err(_) => Err(Failure::ReadFailed),
    }
}
