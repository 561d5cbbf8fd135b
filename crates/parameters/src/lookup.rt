// 01's lookup modes, as LookupParameters of cs/mod.rs orders them.
ghost use Rattle.std.specs.Prelude.{◌≡◌};
ghost use Rattle.parameters.specs.Lookup.{width_of, share_of, mode_of};

#[derive(Clone, Copy)]
pub enum LookupParameters {
    NoLookup,
    TableIdAsVariable { width: u64, share_table_id: bool },
    TableIdAsConstant { width: u64, share_table_id: bool },
    UseSpecializedColumnsWithTableIdAsVariable { width: u64, share_table_id: bool },
    UseSpecializedColumnsWithTableIdAsConstant { width: u64, share_table_id: bool },
}

impl LookupParameters {
    pub fn lookup_width(self) -> u64
        ensures { result ≡ width_of self }
    {
        match self {
            LookupParameters::NoLookup => 0,
            LookupParameters::TableIdAsVariable { width, .. } => width,
            LookupParameters::TableIdAsConstant { width, .. } => width,
            LookupParameters::UseSpecializedColumnsWithTableIdAsVariable { width, .. } => width,
            LookupParameters::UseSpecializedColumnsWithTableIdAsConstant { width, .. } => width,
        }
    }

    // The Rust does not answer for NoLookup; here it is false.
    pub fn share_table_id(self) -> bool
        ensures { result ≡ share_of self }
    {
        match self {
            LookupParameters::NoLookup => false,
            LookupParameters::TableIdAsVariable { share_table_id, .. } => share_table_id,
            LookupParameters::TableIdAsConstant { share_table_id, .. } => share_table_id,
            LookupParameters::UseSpecializedColumnsWithTableIdAsVariable { share_table_id, .. } =>
                share_table_id,
            LookupParameters::UseSpecializedColumnsWithTableIdAsConstant { share_table_id, .. } =>
                share_table_id,
        }
    }

    // The number of the mode.
    pub fn mode(self) -> u64
        ensures { result ≡ mode_of self }
    {
        match self {
            LookupParameters::NoLookup => 0,
            LookupParameters::TableIdAsVariable { .. } => 1,
            LookupParameters::TableIdAsConstant { .. } => 2,
            LookupParameters::UseSpecializedColumnsWithTableIdAsVariable { .. } => 3,
            LookupParameters::UseSpecializedColumnsWithTableIdAsConstant { .. } => 4,
        }
    }
}
