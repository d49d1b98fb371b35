use pa_direct::{Shape, shape};

// The shape of the direct map for a request of that many bytes, none if a class has its slots.
fn shape_for(size: u32) -> Option<Shape> {
    if size <= 917496 {
        return None;
    }
    shape(size)
}

#[test]
fn shapes_on_both_sides_of_an_edge(rt: HostRuntime) {
    let least = Shape {
        slot: 921600,
        supers: 1,
    };
    let middle = Shape {
        slot: 2002944,
        supers: 1,
    };
    let last_in_one = Shape {
        slot: 2064384,
        supers: 1,
    };
    let first_in_two = Shape {
        slot: 2068480,
        supers: 2,
    };
    let greatest = Shape {
        slot: 33521664,
        supers: 16,
    };
    assert!(rt; shape_for(917497) == Some(least));
    assert!(rt; shape_for(2000000) == Some(middle));
    assert!(rt; shape_for(2064376) == Some(last_in_one));
    assert!(rt; shape_for(2064377) == Some(first_in_two));
    assert!(rt; shape_for(33521656) == Some(greatest));
    assert!(rt; shape_for(33521657) == None);
}
