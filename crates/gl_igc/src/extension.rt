ghost use Rattle.std.specs.Prelude.{◌≡◌, ◌<◌, ◌≤◌, length, nat_eq, None, option_map};
ghost use Rattle.gl_igc.specs.Extension.{first_free_column};

/// The columns of a field of B lines, from the first to the last. Columns count from 1.
#[derive(Clone, Copy)]
pub struct Field {
    pub start: u32,
    pub finish: u32,
    pub ghost free: { first_free_column ≤ start },
    pub ghost ordered: { start ≤ finish },
    pub ghost short: { finish < 100 },
}

/// The fields of B lines that count: the decimals of latitude and longitude, and the engine noise.
#[derive(Clone, Copy)]
pub struct Fields {
    pub lad: Option<Field>,
    pub lod: Option<Field>,
    pub enl: Option<Field>,
}
