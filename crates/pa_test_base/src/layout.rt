use pa_layout::{Kind, kind_of, meta_start, page_of, page_start, super_page_of, supers_for};

#[test]
fn first_and_last_pages(rt: HostRuntime) {
    assert!(rt; page_start(0, 1) == 16384);
    assert!(rt; page_start(2047, 127) == 4294950912);
    assert!(rt; meta_start(0, 0) == 4096);
    assert!(rt; meta_start(0, 1) == 4128);
    assert!(rt; meta_start(2047, 127) == 4292878304);
    assert!(rt; super_page_of(2097151) == 0);
    assert!(rt; super_page_of(2097152) == 1);
    assert!(rt; page_of(2097151) == 127);
    assert!(rt; page_of(2097152) == 0);
    assert!(rt; supers_for(2064384) == 1);
    assert!(rt; supers_for(2064385) == 2);
    assert!(rt; supers_for(4294967295) == 2049);
}

#[test]
fn both_sides_of_each_edge(rt: HostRuntime) {
    let edges = [
        (0, Kind::Guard),
        (4095, Kind::Guard),
        (4096, Kind::Metadata),
        (8191, Kind::Metadata),
        (8192, Kind::Guard),
        (16383, Kind::Guard),
        (16384, Kind::Payload),
        (2080767, Kind::Payload),
        (2080768, Kind::Guard),
        (2097151, Kind::Guard),
        (2097152, Kind::Guard),
        (2101248, Kind::Metadata),
        (4294950911, Kind::Payload),
        (4294950912, Kind::Guard),
        (4294967295, Kind::Guard),
    ];
    for (offset, kind) in edges {
        assert!(rt; kind_of(offset) == kind, "at {offset}");
    }
}
