use pa_buckets::{
    Class, SpanShape, cache_limit, class_in, class_of, class_of_2, fill_count, raw_of, slot_size,
    span_of,
};

// The class of a request of that many bytes, none if there is no such request.
fn number_for(size: u32) -> Option<u32> {
    if size > u32::MAX - 8 {
        return None;
    }
    class_of(raw_of(size)).map(|class| class.number())
}

#[test]
fn requests_on_both_sides_of_an_edge(rt: HostRuntime) {
    assert!(rt; number_for(0) == Some(0));
    assert!(rt; number_for(8) == Some(0));
    assert!(rt; number_for(9) == Some(1));
    assert!(rt; number_for(88) == Some(5));
    assert!(rt; number_for(89) == Some(6));
    assert!(rt; number_for(248) == Some(11));
    assert!(rt; number_for(249) == Some(12));
    assert!(rt; number_for(376) == Some(13));
    assert!(rt; number_for(888) == Some(18));
    assert!(rt; number_for(917496) == Some(58));
    assert!(rt; number_for(917497) == None);
    assert!(rt; number_for(33521656) == None);
}

#[test]
fn raw_sizes_on_both_sides_of_an_edge_in_version_2(rt: HostRuntime) {
    assert!(rt; class_of_2(0) == Class::of(59));
    assert!(rt; class_of_2(16) == Class::of(59));
    assert!(rt; class_of_2(17) == Class::of(60));
    assert!(rt; class_of_2(128) == Class::of(66));
    assert!(rt; class_of_2(129) == Class::of(67));
    assert!(rt; class_of_2(144) == Class::of(67));
    assert!(rt; class_of_2(145) == Class::of(68));
    assert!(rt; class_of_2(524288) == Class::of(162));
    assert!(rt; class_of_2(524289) == Class::of(163));
    assert!(rt; class_of_2(983040) == Class::of(169));
    assert!(rt; class_of_2(983041) == None);
}

#[test]
fn classes_by_version(rt: HostRuntime) {
    assert!(rt; class_in(1, 138) == Class::of(8));
    assert!(rt; class_in(2, 138) == Class::of(67));
    assert!(rt; class_in(3, 138) == Class::of(67));
    assert!(rt; class_in(1, 917504) == Class::of(58));
    assert!(rt; class_in(1, 917505) == None);
    assert!(rt; class_in(2, 917505) == Class::of(169));
}

// Whether there is a class of this number, with slots of this size in spans of this shape.
fn has_shape(number: u32, slot: u32, shape: SpanShape) -> bool {
    match Class::of(number) {
        Some(class) => slot_size(class) == slot && span_of(class) == shape,
        None => false,
    }
}

#[test]
fn span_shapes(rt: HostRuntime) {
    let shapes = [
        (5, 96, 1, 4, 170, 64),
        (11, 256, 1, 4, 64, 0),
        (12, 320, 1, 4, 51, 64),
        (13, 384, 3, 12, 128, 0),
        (18, 896, 2, 7, 32, 0),
        (58, 917504, 56, 224, 1, 0),
    ];
    for (number, slot, pages, system_pages, slots, waste) in shapes {
        let shape = SpanShape {
            pages,
            system_pages,
            slots,
            waste,
        };
        assert!(rt; has_shape(number, slot, shape), "class {number}");
    }
}

#[test]
fn span_shapes_of_version_2(rt: HostRuntime) {
    let shapes = [
        (59, 16, 1, 4, 1024, 0),
        (67, 144, 2, 7, 199, 16),
        (83, 576, 3, 11, 78, 128),
        (115, 9216, 4, 16, 7, 1024),
        (129, 30720, 2, 8, 1, 2048),
        (169, 983040, 60, 240, 1, 0),
    ];
    for (number, slot, pages, system_pages, slots, waste) in shapes {
        let shape = SpanShape {
            pages,
            system_pages,
            slots,
            waste,
        };
        assert!(rt; has_shape(number, slot, shape), "class {number}");
    }
    assert!(rt; Class::of(170) == None);
}

// Whether there is a class of this number, with this limit of its cache and this count of a fill.
fn has_limits(number: u32, limit: u32, count: u32) -> bool {
    match Class::of(number) {
        Some(class) => cache_limit(class) == limit && fill_count(class) == count,
        None => false,
    }
}

#[test]
fn limits_on_both_sides_of_an_edge(rt: HostRuntime) {
    let edges = [
        (0, 64, 8),
        (7, 64, 8),
        (8, 32, 4),
        (19, 32, 4),
        (20, 16, 2),
        (39, 16, 2),
        (40, 0, 1),
        (58, 0, 1),
    ];
    for (number, limit, count) in edges {
        assert!(rt; has_limits(number, limit, count), "class {number}");
    }
}
