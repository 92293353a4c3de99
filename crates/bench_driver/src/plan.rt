// A plan of batches. Six numbers say a batch: its kind (0 removes, else adds), then where its parts of the lists lent lie, places from 0: first id and end
// of the ids, first row count (as many as ids), first row and end of the rows. A removal's counts and rows are not read, but must lie in the lists.
ghost use Rattle.std.specs.Prelude.{◌<◌, length, IfSome};
ghost use Rattle.bench_driver.specs.Plans.{PartsIn};

// A batch of a plan.
#[derive(Clone, Copy)]
pub struct Batch<'a> {
    pub adds: bool,
    pub ids: &'a [u32],
    pub row_counts: &'a [u32],
    pub row_list: &'a [u32],
}

// The batches that a plan has, as many as 32 bits count at most.
pub fn batches(plan: &[u32]) -> &[[u32; 6]]
    ensures { length result.now < 4294967296 }
{
    let (all, _) = plan.as_chunks::<6>();
    &all[..all.len().min(4294967295)]
}

// The batch that six numbers say; none where the lists do not have its parts.
pub fn planned<'a>(
    numbers: &[u32; 6],
    ids: &'a [u32],
    row_counts: &'a [u32],
    row_list: &'a [u32],
) -> Option<Batch<'a>>
    ensures { IfSome result (PartsIn numbers.now ids.now row_counts.now row_list.now) }
{
    let [kind, id, id_end, count, row, row_end] = *numbers;
    let ids = ids.get(id as usize..id_end as usize)?;
    Some(Batch {
        adds: kind != 0,
        ids,
        row_counts: row_counts.get(count as usize..)?.get(..ids.len())?,
        row_list: row_list.get(row as usize..row_end as usize)?,
    })
}
