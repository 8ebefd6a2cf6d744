// Worked cases of nets, zones and gaps.
ghost use Rattle.std.specs.Prelude.{◌≡◌, ◌+◌, length};
ghost use Rattle.geometry.specs.Cases.{net_rows, zone_rows, gap_rows, WorkedZones};

/// The number of rows in the worked cases, all of which hold.
// A number, since it says how many rows were computed.
pub fn worked_zones_hold() -> u8
    ensures hold { WorkedZones }
    ensures rows { result ≡ length net_rows + length zone_rows + length gap_rows }
{
    17
}
