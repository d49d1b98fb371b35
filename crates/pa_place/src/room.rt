ghost use Rattle.std.specs.Prelude.{◌≡◌};
ghost use Rattle.pa_place.specs.Roomy.{no_room, fill_room, map_room, opened_room};

use pa_buckets::Class;

// The room that was made: for a number of takes of a class, for a super page that a pool gives, and for a direct map.
#[derive(Clone, Copy, Drop)]
pub(crate) struct Room {
    pub(crate) class: u32,
    pub(crate) takes: u32,
    pub(crate) super_page: bool,
    pub(crate) map: bool,
}

impl Room {
    // No room.
    pub(crate) fn none() -> Room
        ensures { result ≡ no_room }
    {
        Room {
            class: 0,
            takes: 0,
            super_page: false,
            map: false,
        }
    }

    // Room for that many takes of the class, and for a super page.
    pub(crate) fn of_fill(class: Class, takes: u32) -> Room
        ensures { result ≡ fill_room class takes }
    {
        Room {
            class: class.number(),
            takes,
            super_page: true,
            map: false,
        }
    }

    // Room for a direct map.
    pub(crate) fn of_map() -> Room
        ensures { result ≡ map_room }
    {
        Room {
            class: 0,
            takes: 0,
            super_page: false,
            map: true,
        }
    }

    // The room without that for a super page.
    pub(crate) fn opened(self) -> Room
        ensures { result ≡ opened_room self }
    {
        Room {
            super_page: false,
            ..self
        }
    }
}
