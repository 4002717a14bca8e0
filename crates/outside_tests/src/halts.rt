use std::alloc::AllocError;
use vdm_kinds::{Halt, OutOfMemory};

fn refused<T>(halt: T) -> Halt<u8>
where
    Halt<u8>: From<T>,
{
    Halt::from(halt)
}

#[test]
fn want_of_memory_is_told_as_such(rt: HostRuntime) {
    assert_eq!(rt; refused(OutOfMemory), Halt::OutOfMemory);
    assert_eq!(rt; refused(AllocError), Halt::OutOfMemory);
    assert_eq!(rt; OutOfMemory::from(AllocError), OutOfMemory);
}
