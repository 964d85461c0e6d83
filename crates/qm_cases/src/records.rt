// Bytes that have names, and logs of the records that they are.
use qm_plans::{number_and_rest, push_bytes, push_times};
use std::alloc::{AllocError, Global};

#[derive(Drop)]
struct Named {
    name: String,
    bytes: Vec<u8>,
}

/// The bytes that have names. The last one that got a name has it.
#[derive(Drop)]
pub(crate) struct Names {
    alloc: Global,
    named: Vec<Named>,
}

impl Names {
    /// No name.
    pub(crate) fn new(alloc: Global) -> Names {
        Names {
            alloc,
            named: Vec::new(alloc),
        }
    }

    fn add(&mut self, name: &str, bytes: Vec<u8>) -> Result<(), AllocError> {
        let name = String::from_str(self.alloc, name)?;
        self.named.push(Named { name, bytes })?;
        Ok(())
    }

    /// Names the bytes that are meant behind a name and a blank.
    pub(crate) fn define(&mut self, text: &str) -> Result<(), AllocError> {
        let (name, meant) = text.split_once(" ").unwrap_or((text, ""));
        let mut bytes = Vec::new(self.alloc);
        push_bytes(&mut bytes, meant)?;
        self.add(name, bytes)
    }

    /// Names the bytes of a name with so many letters `x` behind them so.
    pub(crate) fn lengthen(&mut self, text: &str) -> Result<(), AllocError> {
        let (count, name) = number_and_rest(text);
        let mut bytes = self.get(name).to_vec(self.alloc)?;
        push_times(&mut bytes, count, b"x")?;
        self.add(name, bytes)
    }

    /// The bytes of a name; none where nothing has it.
    pub(crate) fn get(&self, name: &str) -> &[u8] {
        for named in self.named.iter().rev() {
            if named.name.as_str() == name {
                return named.bytes.as_slice();
            }
        }
        &[]
    }

    // Adds records to a log: of each an open gate, its length in four bytes, and its bytes.
    fn push_records(&self, log: &mut Vec<u8>, names: &str) -> Result<(), AllocError> {
        for name in names.split_whitespace() {
            let body = self.get(name);
            log.push(1)?;
            log.extend_from_slice(&(body.len() as u64).to_le_bytes()[..4])?;
            log.extend_from_slice(body)?;
        }
        Ok(())
    }

    /// The log of the records of these names.
    pub(crate) fn log(&self, names: &str) -> Result<Vec<u8>, AllocError> {
        let mut file = Vec::new(self.alloc);
        self.push_records(&mut file, names)?;
        file.push(0)?;
        Ok(file)
    }

    /// The bytes of these names, in which the name of a node stands for each `@`.
    pub(crate) fn of_node(&self, names: &str, node: &str) -> Result<Vec<u8>, AllocError> {
        let mut bytes = Vec::new(self.alloc);
        for name in names.split_whitespace() {
            push_of_node(&mut bytes, self.get(name), node)?;
        }
        Ok(bytes)
    }

    /// Adds to a log so many times the records of the names behind the number.
    pub(crate) fn go_on(&self, file: &mut Vec<u8>, text: &str) -> Result<(), AllocError> {
        let (times, names) = number_and_rest(text);
        file.pop();
        for _ in 0..times {
            self.push_records(file, names)?;
        }
        file.push(0)?;
        Ok(())
    }
}

// Adds bytes in which the name of a node stands for each `@`.
fn push_of_node(bytes: &mut Vec<u8>, template: &[u8], node: &str) -> Result<(), AllocError> {
    for byte in template {
        match byte {
            b'@' => bytes.extend_from_slice(node.as_bytes())?,
            _ => bytes.push(*byte)?,
        }
    }
    Ok(())
}

/// Adds to the log of a master so many epochs of the first node, from 1 on.
pub(crate) fn push_epochs(log: &mut Vec<u8>, count: usize) -> Result<(), AllocError> {
    log.pop();
    for epoch in 1..=count as u64 {
        log.extend_from_slice(b"\x01\x0b\x00\x00\x00\x01A")?;
        log.extend_from_slice(&epoch.to_le_bytes())?;
        log.push(0)?;
    }
    log.push(0)?;
    Ok(())
}
