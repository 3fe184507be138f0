// The readers over the C boundary.
ghost use Rattle.std.specs.Prelude.{◌≡◌};
ghost use Rattle.node_area.specs.Reading as nodes_reading;
ghost use Rattle.indices.specs.Reading as indices_reading;
ghost use Rattle.property_area.specs.Reading as properties_reading;
ghost use Rattle.readers.specs.Readings.{node_reading, nodes_out, index_reading, indices_out, property_reading, properties_out};
ghost use Rattle.draugsten.specs.Promises.{ReadNodesPromise, ReadIndicesPromise, ReadPropertiesPromise};

use readers::{IndexReading, NodeReading, PropertyReading};

// Reads a node area of a call of a scope: the operations into `out`, three words for each, as many as it has room for.
#[unsafe(no_mangle)]
pub extern "C" fn draugsten_read_nodes(area: &[u8], scope: u32, out: &mut [u32]) -> NodeReading
    ensures value { result ≡ node_reading area.now (nodes_reading.reading scope area.now) }
    ensures out_after { out.new ≡ nodes_out out.old (nodes_reading.reading scope area.now) }
    ensures promise { ReadNodesPromise }
{
    readers::read_nodes(area, scope, out)
}

// Reads an index area: the entries into `out`, three numbers for each, as many as it has room for.
#[unsafe(no_mangle)]
pub extern "C" fn draugsten_read_indices(area: &[u8], out: &mut [u64]) -> IndexReading
    ensures value { result ≡ index_reading (indices_reading.reading area.now) }
    ensures out_after { out.new ≡ indices_out out.old area.now (indices_reading.reading area.now) }
    ensures promise { ReadIndicesPromise }
{
    readers::read_indices(area, out)
}

// Reads a property area: the properties into `out`, five words for each, as many as it has room for.
#[unsafe(no_mangle)]
pub extern "C" fn draugsten_read_properties(area: &[u8], out: &mut [u32]) -> PropertyReading
    ensures value { result ≡ property_reading area.now (properties_reading.reading area.now) }
    ensures out_after { out.new ≡ properties_out out.old area.now (properties_reading.reading area.now) }
    ensures promise { ReadPropertiesPromise }
{
    readers::read_properties(area, out)
}
