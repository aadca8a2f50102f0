// Whether the layers of one list stand in another: what is to be asked before a tile is worked with its count. A kind is
// 0 to 2; of shown layers, 2 where the layer needs a clip and else 0.
ghost use Rattle.kept_count.specs.Keeping.{lent_members, keep_of};
ghost use Rattle.ffi_numbers.specs.Cached.{kept_of};
ghost use Rattle.ffi_numbers.specs.Counts.{count_numbers, CountTold};

// 0 and in `stays` whether each of the `last` layers of one list stands among the `n` of another, as the same kind, or
// the number of the refusal. Asked each way round about the layers that a tile showed and those that it would show, it
// tells whether they are alike (docs/statements/kept.md). Where the answer is no, the count's tag is dropped and nothing
// else. The tile's bytes are stored where the call is accepted and a tile is given.
#[unsafe(no_mangle)]
pub extern "C" fn ffi_keep_count(
    last_ids: &[u32],
    last_kinds: &[u8],
    last: usize,
    ids: &[u32],
    kinds: &[u8],
    n: usize,
    is_kept: bool,
    kept: &mut [u8; 8],
    stays: &mut bool,
) -> u32
    ensures { CountTold
        (keep_of
        (lent_members last_ids.now last_kinds.now last)
        (lent_members ids.now kinds.now n)
        (kept_of is_kept kept.old))
        (count_numbers kept.old stays.old)
        result
        (count_numbers kept.new stays.new) }
{
    ffi::counts::ffi_keep_count(
        last_ids, last_kinds, last, ids, kinds, n, is_kept, kept, stays,
    )
}
