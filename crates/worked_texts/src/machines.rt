//! Texts of machines.

/// Two units: loads and stores share one, additions have the other.
pub const M1: &str = r#"registers = 8
units = ["mem", "alu"]

[ops.load]
latency = 3
alts = [["mem@0"]]

[ops.store]
latency = 1
alts = [["mem@0"]]

[ops.add]
latency = 1
alts = [["alu@0"]]
"#;

/// One unit, which a product holds for two cycles.
pub const M2: &str = r#"registers = 8
units = ["u"]

[ops.add]
latency = 2
alts = [["u@0"]]

[ops.mul]
latency = 1
alts = [["u@0", "u@1"]]
"#;

/// A product holds the one unit in its cycle and two cycles later.
pub const M3: &str = r#"registers = 8
units = ["u"]

[ops.mul]
latency = 1
alts = [["u@0", "u@2"]]
"#;

/// Stores take longer than loads.
pub const M4: &str = r#"registers = 8
units = ["mem", "alu"]

[ops.load]
latency = 1
alts = [["mem@0"]]

[ops.store]
latency = 4
alts = [["mem@0"]]

[ops.add]
latency = 1
alts = [["alu@0"]]
"#;

/// Products of five cycles.
pub const M5: &str = r#"registers = 8
units = ["u", "mem"]

[ops.mul]
latency = 5
alts = [["u@0"]]

[ops.store]
latency = 1
alts = [["mem@0"]]
"#;

/// Two units that add, of which one multiplies.
pub const M6: &str = r#"registers = 8
units = ["a0", "a1"]

[ops.add]
latency = 1
alts = [["a0@0"], ["a1@0"]]

[ops.mul]
latency = 2
alts = [["a0@0"]]
"#;

/// Two units whose additions take 64 cycles.
pub const M7: &str = r#"registers = 8
units = ["a0", "a1"]

[ops.add]
latency = 64
alts = [["a0@0"], ["a1@0"]]
"#;

/// The first machine, with a comparison.
pub const M8: &str = r#"registers = 8
units = ["mem", "alu"]

[ops.load]
latency = 3
alts = [["mem@0"]]

[ops.store]
latency = 1
alts = [["mem@0"]]

[ops.add]
latency = 1
alts = [["alu@0"]]

[ops.lt]
latency = 1
alts = [["alu@0"]]
"#;

/// The first machine, with two registers.
pub const TWO_REGISTERS: &str = r#"registers = 2
units = ["mem", "alu"]

[ops.load]
latency = 3
alts = [["mem@0"]]

[ops.store]
latency = 1
alts = [["mem@0"]]

[ops.add]
latency = 1
alts = [["alu@0"]]
"#;
