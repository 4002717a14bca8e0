// A map that is extended twice.

use crate::SharedMap;
use std::alloc::Global;
use vdm_kinds::{Name, OutOfMemory};

#[test]
fn an_extended_map_leaves_the_old_one(rt: HostRuntime) {
    assert!(rt; inner_and_outer(rt.alloc()) == Ok(([10, 0, 0], [11, 12, 0])));
}

fn inner_and_outer(alloc: Global) -> Result<([u32; 3], [u32; 3]), OutOfMemory> {
    let outer = SharedMap::new().with(alloc, Name(5), 10)?;
    let inner = outer.copy()?.with(alloc, Name(5), 11)?;
    let inner = inner.with(alloc, Name(37), 12)?;
    Ok((seen(&outer), seen(&inner)))
}

// What stands under three names, and 0 for nothing.
fn seen(map: &SharedMap<u32>) -> [u32; 3] {
    [at(map, 5), at(map, 37), at(map, 69)]
}

fn at(map: &SharedMap<u32>, name: u32) -> u32 {
    map.find(Name(name)).copied().unwrap_or(0)
}
