//! One upload is collected, stored, and answered.

ghost use Rattle.std.specs.Prelude.{◌≡◌, None};
ghost use Rattle.jc_base.specs.declared.fault.Code.TheVariants.{ReadFailed};
ghost use Rattle.jc_base.specs.Device.{Rose};
ghost use Rattle.jc_collect.specs.Delivered.{of_delivery};
ghost use Rattle.jc_collect.specs.Position.{FailsUnread, HasCode, HasGivenFewer, NamesNone};
ghost use Rattle.jc_collect.specs.Settled.{HasAnswered, withdrawn};
ghost use Rattle.jc_upload.specs.Head.{header_length};

use crate::Delivery;
use crate::collect::collect_one;
use jc_base::{ByteStream, Code, Limits};
use jc_file::ByteSpace;
use jc_keeper::{KeepStop, Keeper};
use jc_upload::Answer;
use std::alloc::Global;

/// Takes an upload up as `collect_one` does, and sees to it that what is acknowledged is stored. If that fails, the answer is
/// `No` with the code of the failure, and place 0.
pub fn collect_settled<K: Keeper, R: ByteStream, B: ByteSpace>(
    alloc: Global,
    keeper: &mut K,
    delivery: &mut Delivery<R, B>,
    limits: &Limits,
) -> Answer
    ensures answers { HasAnswered K.Keeper limits.now (of_delivery R.remaining B.bytes delivery.old) keeper.old keeper.new result }
    ensures read { HasCode result ReadFailed
        → Rose (of_delivery R.failures B.failures delivery.old) (of_delivery R.failures B.failures delivery.new) }
    ensures unread { FailsUnread result
        → HasGivenFewer header_length (of_delivery R.remaining (λ _. None) delivery.old) (of_delivery R.remaining (λ _. None) delivery.new) }
    ensures untouched { NamesNone result → keeper.new ≡ keeper.old }
{
    let answer = collect_one(alloc, keeper, delivery, limits);
    match answer {
        Answer::Ack { .. } => match keeper.settle() {
            Ok(()) => answer,
            Err(stop) => withdrawn(stop, answer),
        },
        Answer::No { .. } => answer,
    }
}

/// The answer to an upload, if what was to be stored with it can't be. A conflict may be with an entry of that.
pub(crate) fn withdrawn(stop: KeepStop, answer: Answer) -> Answer
    ensures { result ≡ withdrawn stop answer }
{
    let of = match answer {
        Answer::Ack { source, start, .. } => Some((source, start)),
        Answer::No { of, code, .. } if code == Code::Conflict.number() => of,
        Answer::No { .. } => return answer,
    };
    Answer::No {
        of,
        code: stop.code().number(),
        place: 0,
    }
}
