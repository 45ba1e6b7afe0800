//! The example of docs/LIBRARY.md: bounds and a plain run of texts in memory.

use super::given::{ACC, M1};
use graph::{edges, res_mii};
use loops::{read_loops, run_plain};
use machine::read_machine;
use std::test::Fail;
use walks::{mii, rec_mii};

#[test]
fn tells_bounds_of_texts_in_memory(rt: HostRuntime) -> Result<(), Fail> {
    let alloc = rt.alloc();
    let machine = read_machine(alloc, M1.as_bytes())?;
    for innermost in &read_loops(alloc, ACC.as_bytes())? {
        let dependences = edges(alloc, &machine, innermost)?;
        let resources = res_mii(&machine, innermost)?;
        let recurrences = rec_mii(alloc, &dependences)?;
        assert_eq!(rt; mii(resources, recurrences), 2);

        let after = run_plain(alloc, innermost, 3)?;
        assert_eq!(rt; after.trip(), 3);
        assert_eq!(rt; after.array_count(), 2);
        assert_eq!(rt; after.cell(1, 2), 6);
    }
    Ok(())
}
