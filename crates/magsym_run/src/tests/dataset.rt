// The command `dataset`: the magnetic type, and the operations of the primitive cell.
use super::Ends::{Parts, ReadFails, Refused};
use super::{CENTRED, CHAIN, CUBIC, DOUBLED, NONMAGNETIC, RUTILE, Row, TILTED, first_wrong};

/// A crystal of each type, those with a shorter translation than their cell shows, and one whose primitive cell has fewer
/// operations than its cell.
const DATASETS: &[Row] = &[
    Row(
        "dataset",
        NONMAGNETIC,
        Parts(
            1,
            b"{\"back\":\"1 0 0 0 1 0 0 0 1\",\"cell_order\":96,\"family_order\":48,\"index\":1,\"metric\":\"1 1 1 0 0 0\",\"operations\":[\"-x,-y,-z,+1\",\"-x,-y,-z,-1\",",
            b"",
            b",\"x,y,z,+1\",\"x,y,z,-1\"],\"orbits\":[1],\"order\":96,\"sites\":[96],\"type\":2,\"unprimed_order\":48}\n",
        ),
    ),
    Row(
        "dataset",
        CUBIC,
        Parts(
            1,
            b"{\"back\":\"1 0 0 0 1 0 0 0 1\",\"cell_order\":16,\"family_order\":16,\"index\":1,\"metric\":\"1 1 1 0 0 0\",\"operations\":[\"-x,-y,-z,+1\",\"-x,-y,z,+1\",",
            b"",
            b",\"x,y,-z,+1\",\"x,y,z,+1\"],\"orbits\":[1],\"order\":16,\"sites\":[16],\"type\":3,\"unprimed_order\":8}\n",
        ),
    ),
    Row(
        "dataset",
        CHAIN,
        Parts(
            1,
            b"{\"back\":\"1 0 0 0 1 0 0 0 1\",\"cell_order\":32,\"family_order\":32,\"index\":1,\"metric\":\"1 1 4 0 0 0\",",
            b"",
            b",\"x,y,z,+1\",\"x,y,z+1/2,-1\"],\"orbits\":[1,1],\"order\":32,\"sites\":[16,16],\"type\":4,\"unprimed_order\":16}\n",
        ),
    ),
    Row(
        "dataset",
        DOUBLED,
        Parts(
            1,
            b"{\"back\":\"2 0 0 0 1 0 0 0 1\",\"cell_order\":64,\"family_order\":48,\"index\":2,\"metric\":\"1 1 1 0 0 0\",",
            b"",
            b",\"x,y,z,+1\",\"x,y,z,-1\"],\"orbits\":[1,1],\"order\":96,\"sites\":[96,96],\"type\":2,\"unprimed_order\":48}\n",
        ),
    ),
    Row(
        "dataset",
        TILTED,
        Parts(
            1,
            b"{\"back\":\"1 0 0 0 1 0 0 0 1\",\"cell_order\":2,\"family_order\":2,\"index\":1,\"metric\":\"4 5 6 1 1 1\",",
            b"",
            b",\"operations\":[\"-x,-y,-z,+1\",\"x,y,z,+1\"],\"orbits\":[1],\"order\":2,\"sites\":[2],\"type\":1,\"unprimed_order\":2}\n",
        ),
    ),
    Row(
        "dataset",
        RUTILE,
        Parts(
            1,
            b"{\"back\":\"",
            b"",
            b"],\"orbits\":[1,1,3,3,3,3],\"order\":16,\"sites\":[8,8,4,4,4,4],\"type\":3,\"unprimed_order\":8}\n",
        ),
    ),
    Row(
        "dataset",
        CENTRED,
        Parts(
            1,
            b"",
            b",\"cell_order\":32,\"family_order\":8,\"index\":2,",
            b"],\"orbits\":[1,1],\"order\":16,\"sites\":[16,16],\"type\":2,\"unprimed_order\":8}\n",
        ),
    ),
    // Moments along a and along c in a cell that is doubled along a: all operations of the primitive cell are operations of the
    // cell, or half of them, and each of these comes with two translations.
    Row(
        "dataset",
        b"magcell 1\nmetric 4 1 1 0 0 0\natom A 0 0 0 1 0 0\natom A 1/2 0 0 1 0 0\nend\n",
        Parts(
            1,
            b"{\"back\":\"2 0 0 0 1 0 0 0 1\",\"cell_order\":32,\"family_order\":16,\"index\":2,\"metric\":\"1 1 1 0 0 0\",",
            b"",
            b"],\"orbits\":[1,1],\"order\":16,\"sites\":[16,16],\"type\":3,\"unprimed_order\":8}\n",
        ),
    ),
    Row(
        "dataset",
        b"magcell 1\nmetric 4 1 1 0 0 0\natom A 0 0 0 0 0 1\natom A 1/2 0 0 0 0 1\nend\n",
        Parts(
            1,
            b"{\"back\":\"2 0 0 0 1 0 0 0 1\",\"cell_order\":16,\"family_order\":16,\"index\":2,\"metric\":\"1 1 1 0 0 0\",",
            b"",
            b"],\"orbits\":[1,1],\"order\":16,\"sites\":[16,16],\"type\":3,\"unprimed_order\":8}\n",
        ),
    ),
    // Refused as for the other commands.
    Row(
        "dataset",
        b"magcell 1\n",
        Refused(3, b"magsym: line 2: end is missing\n"),
    ),
    Row("dataset", CUBIC, ReadFails(1)),
];

#[test]
fn the_dataset_of_a_crystal(rt: HostRuntime) {
    assert_eq!(rt; first_wrong(rt.alloc(), DATASETS), DATASETS.len());
}
