//! How many bytes items take, or the first that can't be written. Nothing is allocated.

ghost use Rattle.std.specs.Prelude.{◌≡◌, IfOk, IfErr, map};
ghost use Rattle.kmip_ttlv_write.specs.FlatWrites.{AllFit, after_all, start, HasNone};

use crate::given::{BadItem, GiveItem};
use crate::judge::{Reach, judge};

/// How many bytes items take, or the first of them that can't be written.
pub fn measure<T: GiveItem>(items: &[T], lent: &[u8]) -> Result<usize, BadItem>
    ensures ok { IfOk result (λ n. AllFit lent.now start (map T.given items.now)
        × (n ≡ (after_all start (map T.given items.now)).size)) }
    ensures err { IfErr result (λ bad. HasNone (map T.given items.now) lent.now bad) }
{
    let mut reach = Reach {
        depth: 0,
        size: 0,
        content: 0,
    };
    let mut index = 0;
    'items: for item in items {
        match judge(lent, reach, item.give()) {
            Ok(next) => reach = next,
            Err(kind) => return Err(BadItem { index, kind }),
        }
        index += 1;
    }
    Ok(reach.size)
}
