// The check of lent memory.
ghost use Rattle.skip_list.specs.Memory.{MemoryFor, Usable};

use crate::fault::ListFault;

// The most rows that a list takes.
const MOST: usize = 4096;

// The number of rows that the memory has, if it is memory for a list. By its lengths alone, so that it can be asked before anything is lent.
pub fn check_memory(keys: usize, rows: usize, slots: usize) -> Result<usize, ListFault>
    ensures { MemoryFor keys rows slots result }
{
    let n = keys.min(rows);
    if n == 0 || n > MOST || slots != 2 * n {
        return Err(ListFault::BadMemory);
    }
    Ok(n)
}

// How many rows a list has: none over memory that fails the check.
pub(crate) fn usable_rows(keys: usize, rows: usize, slots: usize) -> usize
    ensures { Usable keys rows slots result }
{
    check_memory(keys, rows, slots).unwrap_or(0)
}
